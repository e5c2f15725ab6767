// Some thousand generated commands: the core answers as the plain machine does.
ghost use Rattle.std.specs.Prelude.{◌<◌};

use crate::asks::Ask;
use crate::faults::WorldFault;
use crate::plain::{Plain, takes};
use crate::steps::Cores;
use repo_model::Question;
use std::alloc::Global;

static REPOS: [&str; 3] = ["releases", "mixed", "snapshots"];

static PATHS: [&str; 6] = [
    "org/acme/lib/1.0/lib-1.0.jar",
    "org/acme/lib/1.0/lib-1.0.pom",
    "org/acme/lib/1.0/lib-1.0-sources.jar",
    "org/acme/lib/1.0.1/lib-1.0.1.jar",
    "com/acme/app/2/app-2.war",
    "org/acme/lib/1.1-SNAPSHOT/lib-1.1-20240102.030405-1.jar",
];

static CONTENTS: [&[u8]; 3] = [b"", b"abc", b"abd"];

/// Numbers that look random: a linear congruence with the multiplier and the increment of Knuth's MMIX.
#[derive(Drop)]
struct Numbers(u64);

impl Numbers {
    fn below(&mut self, end: u64) -> u64
        requires { 0 < end }
        ensures { result < end }
    {
        self.0 = self
            .0
            .wrapping_mul(6_364_136_223_846_793_005)
            .wrapping_add(1_442_695_040_888_963_407);
        (self.0 >> 33) % end
    }

    fn next_ask(&mut self, drafts: &[u64]) -> Ask<'static> {
        let repo = REPOS[self.below(3) as usize];
        let path = PATHS[self.below(6) as usize];
        let content = CONTENTS[self.below(3) as usize];
        let pick = self.below(4) as usize;
        let draft = drafts.get(pick).copied().unwrap_or(self.below(40));
        match self.below(12) {
            0 | 1 => Ask::Look(repo, path),
            2 => Ask::Done(self.below(200)),
            3 => Ask::Drop(draft),
            8 => Ask::Question(Question::Status),
            9 => Ask::MayStage(draft, path),
            11 => Ask::Unlist(repo),
            10 => Ask::PutDoc(repo, "org/acme/lib/maven-metadata.xml"),
            4 | 5 if takes(repo, path) => Ask::Put(repo, path, draft, content),
            _ => Ask::MayPut(repo, path),
        }
    }
}

/// The repositories of the commands.
const MIXED: &str = "max_file = 1000
[[hosted]]
id = \"releases\"
releases = true
snapshots = false
[[hosted]]
id = \"mixed\"
releases = true
snapshots = true
[[hosted]]
id = \"snapshots\"
releases = false
snapshots = true
";

/// How often a file was given, and how often one was refused.
type Counts = (u64, u64);

// One more file, or one more refusal, where the answer is one.
fn counted((files, refused): Counts, answer: &str) -> Counts {
    if answer.starts_with("file ") {
        return (files.saturating_add(1), refused);
    }
    if answer == "same" || answer == "no-draft" || answer.starts_with("taken ") {
        return (files, refused.saturating_add(1));
    }
    (files, refused)
}

/// The core and the plain machine, which are given the same commands, and how they answered.
#[derive(Drop)]
struct Pair<W: Cores> {
    numbers: Numbers,
    plain: Plain,
    world: W,
    counts: Counts,
}

impl<W: Cores> Pair<W> {
    /// Gives both one command more. Whether they answer alike.
    fn go(&mut self) -> Result<bool, WorldFault> {
        let ask: Ask<'static> = self.numbers.next_ask(&self.plain.drafts);
        let want: String = self.plain.turn(ask)?;
        self.counts = counted(self.counts, want.as_str());
        let told: String = self.world.ask(ask)?;
        Ok(told.as_str() == want.as_str())
    }

    /// The first of so many commands that the core answers otherwise.
    fn first_other(&mut self, count: u64) -> Result<Option<u64>, WorldFault> {
        for n in 0..count {
            if !self.go()? {
                return Ok(Some(n));
            }
        }
        Ok(None)
    }
}

// The first of so many commands that the core of a new world answers otherwise, and the counts.
fn compared<W: Cores>(
    alloc: Global,
    world: W,
    count: u64,
) -> Result<(Option<u64>, Counts), WorldFault> {
    let mut world = world;
    let started: String = world.start(MIXED.as_bytes(), 1_700_000_000, 1)?;
    if started.as_str() != "started" {
        return Ok((Some(0), (0, 0)));
    }
    let mut pair = Pair {
        numbers: Numbers(1),
        plain: Plain::new(alloc),
        world,
        counts: (0, 0),
    };
    let other = pair.first_other(count)?;
    Ok((other, pair.counts))
}

/// What is told of so many generated commands: `alike` where the core answers each as the plain machine does, and many files were
/// given and many refused.
pub(crate) fn told_of_generated<W: Cores>(
    world: &W,
    alloc: Global,
    count: u64,
) -> Result<&'static str, WorldFault> {
    match compared(alloc, world.another()?, count)? {
        (None, (200.., 200..)) => Ok("alike"),
        (None, _) => Ok("too few files"),
        (Some(_), _) => Ok("other"),
    }
}
