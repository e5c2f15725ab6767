//! Laws of groups, as contracts of functions that do nothing.
ghost use Rattle.std.specs.Prelude.{◌≡◌, ℕ, false, true, List, map, None, Some, Result};
ghost use Rattle.mvn_coords.specs.Layout.{Directory};
ghost use Rattle.mvn_coords.specs.declared.fault.PathFault.{PathFault};
ghost use Rattle.mvn_coords.specs.declared.kind.Kind.{Kind};
ghost use Rattle.repo_model.specs.State.{State};
ghost use Rattle.repo_model.specs.Turn.{each_seen, document_shown, first_or, group_seen, merged_of, or_nothing};
ghost use Rattle.repo_model.specs.Proxies.{subject_of};
ghost use Rattle.group_view.specs.Members.{next};
ghost use Rattle.group_laws.specs.Seen.{asked_of, seen_of, stance_of};

/// Of a file, or a side file of one, a group has what the member has whose turn it is, by the stance of each member. Of a document,
/// or a side file of one, it asks the remote of that member; where it is no member's turn, it has the documents of all as one.
pub fn groups_follow_their_members()
    ensures file { (s : State) (now : ℕ) (tried path : List ℕ) (k : Result Kind PathFault) (ids : List (List ℕ)) →
        let seens = each_seen s now tried path k 0 ids in
        group_seen s now tried path k ids None ≡ seen_of seens (next false (map stance_of seens)) }
    ensures document { (s : State) (now : ℕ) (tried path : List ℕ) (k : Result Kind PathFault) (ids : List (List ℕ)) (d : Directory) →
        let seens = each_seen s now tried path k 0 ids in
        group_seen s now tried path k ids (Some d)
        ≡ first_or (asked_of seens (next true (map stance_of seens))) (or_nothing (document_shown k) (merged_of s now tried (subject_of path k) d ids)) }
{}
