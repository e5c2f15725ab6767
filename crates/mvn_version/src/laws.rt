//! What holds of the order for all texts, and examples of it, as contracts of functions that do nothing.

ghost use Rattle.std.specs.Prelude.{◌≡◌, ◌↔◌, ℕ, List, [], ◌∷◌, true, false, codes};
ghost use Rattle.std.specs.List.{list_all};
ghost use Rattle.std.specs.Cmp.{IsTotalOrder};
ghost use Rattle.std.specs.Ordering.{is_gt, ordering_reverse};
ghost use Rattle.std.specs.declared.cmp.Ordering.TheVariants.{Less, Equal};
ghost use Rattle.mvn_version.specs.declared.token.Mark.TheVariants.{Dot, Dash};
ghost use Rattle.mvn_version.specs.Key.{key, number, word};
ghost use Rattle.mvn_version.specs.Order.{list_cmp, version_cmp};
ghost use Rattle.mvn_version.specs.Token.{is_uniform, joined, seams_fit, tokens};
ghost use Rattle.mvn_version.specs.Worked.{AreAlike, IsRising};

/// `compare` orders all texts, any two in one way, and ties those with equal keys.
pub fn version_laws()
    ensures reflexive { (v : List ℕ) → version_cmp v v ≡ Equal }
    ensures total { (v w : List ℕ) → version_cmp v w ≡ ordering_reverse (version_cmp w v) }
    ensures transitive { (u v w : List ℕ)
        → is_gt (version_cmp u v) ≡ false → is_gt (version_cmp v w) ≡ false → is_gt (version_cmp u w) ≡ false }
    ensures antisymmetric { (v w : List ℕ)
        → is_gt (version_cmp v w) ≡ false → is_gt (version_cmp w v) ≡ false → key v ≡ key w }
    ensures ties { (v w : List ℕ) → (version_cmp v w ≡ Equal) ↔ (key v ≡ key w) }
{}

/// The order in lists goes by `compare`, and ties each text with itself alone.
pub fn list_laws()
    ensures total { IsTotalOrder list_cmp }
    ensures ties { (v w : List ℕ) → (list_cmp v w ≡ Equal) ↔ (v ≡ w) }
    ensures below { (v w : List ℕ) → version_cmp v w ≡ Less → list_cmp v w ≡ Less }
{}

/// The tokens of a text put together are the text; each is digits or letters alone; seams stand between these alone.
pub fn token_laws()
    ensures joined { (text : List ℕ) → joined (tokens text) ≡ text }
    ensures uniform { (text : List ℕ) → list_all (λ t. is_uniform t.text) (tokens text) ≡ true }
    ensures seams { (text : List ℕ) → seams_fit (tokens text) ≡ true }
{}

/// Keys of versions.
pub fn worked_keys()
    ensures plain { key (codes "1") ≡ number Dot (codes "1") ∷ [] }
    ensures trailing_zero { key (codes "1.0") ≡ number Dot (codes "1") ∷ [] }
    ensures release { key (codes "1-ga") ≡ number Dot (codes "1") ∷ [] }
    ensures candidate { key (codes "1.0-rc1")
        ≡ number Dot (codes "1") ∷ word (codes "rc") ∷ number Dash (codes "1") ∷ [] }
    ensures inner_zero { key (codes "1.0.1")
        ≡ number Dot (codes "1") ∷ number Dot [] ∷ number Dot (codes "1") ∷ [] }
    ensures build { key (codes "1.0-1") ≡ number Dot (codes "1") ∷ number Dash (codes "1") ∷ [] }
    ensures short_word { key (codes "1-a1")
        ≡ number Dot (codes "1") ∷ word (codes "alpha") ∷ number Dash (codes "1") ∷ [] }
    ensures own_word { key (codes "1-a-1")
        ≡ number Dot (codes "1") ∷ word (codes "a") ∷ number Dash (codes "1") ∷ [] }
    ensures mixed_zeros { key (codes "1.0-0") ≡ number Dot (codes "1") ∷ [] }
    ensures standing_zero { key (codes "1.0-0.1")
        ≡ number Dot (codes "1") ∷ number Dash [] ∷ number Dot (codes "1") ∷ [] }
    ensures empty_tokens { key (codes ".-x.")
        ≡ word (codes "x") ∷ [] }
{}

/// Comparisons of versions.
pub fn worked_order()
    ensures rising { IsRising (codes "1.0-rc1" ∷ codes "1.0-SNAPSHOT" ∷ codes "1.0" ∷ codes "1.0-sp"
        ∷ codes "1.0-1" ∷ codes "1.0.1" ∷ codes "1.9" ∷ codes "1.10" ∷ []) }
    ensures words_rising { IsRising (codes "1-alpha" ∷ codes "1-beta" ∷ codes "1-milestone" ∷ codes "1-rc"
        ∷ codes "1-snapshot" ∷ codes "1" ∷ codes "1-sp" ∷ codes "1-abc" ∷ codes "1-abd" ∷ codes "1-1" ∷ codes "1.1" ∷ []) }
    ensures releases { AreAlike (codes "1" ∷ codes "1.0" ∷ codes "1-ga" ∷ codes "1.0.0" ∷ []) }
    ensures short_words { AreAlike (codes "1-a1" ∷ codes "1-alpha-1" ∷ codes "1.ALPHA1" ∷ []) }
    ensures candidates { AreAlike (codes "1-cr" ∷ codes "1-rc" ∷ codes "1_RC" ∷ []) }
    ensures leading_zeros { AreAlike (codes "1.7" ∷ codes "1.000000000000000000000000000007" ∷ []) }
    ensures long_numbers { IsRising (codes "99999999999999999999" ∷ codes "100000000000000000000" ∷ []) }
{}
