//! How long the calls of a connection may wait, seen from a stand-in for the system's connection.

use crate::courses::{ANSWER, Act, GET, GOES_ON, Step, TELLS, goes_by};
use crate::stand_in::{Does, Script};
use std::sync::Wait;
use std::thread::Threads;

const HEAD: &[u8] = b"PUT /x HTTP/1.1\r\nContent-Length: 3\r\nExpect: 100-continue\r\n\r\n";

// A request, then one whose body has 12 bytes, and a third. One field's name begins as another's, one field's value
// is as another field, and a line of the second head is a CR and a letter.
const MANY: &[u8] =
    b"GET / HTTP/1.1\r\n\r\n\r\nPUT /x HTTP/1.1\r\nContent: 1\r\n\rX\r\nX: Content-Length: 2\r\nCONTENT-length:0012 \r\n\r\n\r\n\r\nGET / HTGET / HTTP/1.1\r\n\r\n";

const FIRST: &[u8] = b"GET / HTTP/1.1\r\n\r\n";

const SECOND: &[u8] =
    b"\r\nPUT /x HTTP/1.1\r\nContent: 1\r\n\rX\r\nX: Content-Length: 2\r\nCONTENT-length:0012 \r\n\r\n\r\n\r\nGET / HT";

const THIRD: &[u8] = b"GET / HTTP/1.1\r\n\r\n";

// A head comes, of a PUT or of a GET, or the end, within the time between requests.
const PUTS: Step = Step::Timed(HEAD, 10);

const GETS: Step = Step::Timed(GET, 10);

const ENDS: Step = Step::Timed(b"", 10);

// Whether the connection of one client, which gives these pieces, goes through these calls, and that comes of it.
fn goes_so<W: Threads + Wait>(rt: &HostRuntime, waits: &W, pieces: &[&[u8]], acts: &[Act]) -> bool {
    let script = Script::of(&[], pieces);
    goes_by(rt, waits, &script, acts)
}

fn ran(steps: &'static [Step]) -> [Act; 2] {
    [Act::Client(b"x"), Act::Runs(steps)]
}

static EACH: [Step; 7] = [
    PUTS,
    GOES_ON,
    Step::Timed(b"abc", 1_000),
    TELLS,
    GETS,
    TELLS,
    ENDS,
];

#[test]
fn each_call_has_its_time(rt: HostRuntime) {
    assert!(rt; goes_so(&rt, &rt, &[HEAD, b"abc", GET], &ran(&EACH)));
}

static WITHOUT_BODY: [Step; 3] = [PUTS, GOES_ON, Step::Fails(1_000)];

// A body that doesn't come is a fault.
#[test]
fn a_body_that_does_not_come_is_a_fault(rt: HostRuntime) {
    assert!(rt; goes_so(&rt, &rt, &[HEAD], &ran(&WITHOUT_BODY)));
}

const ONE: [Step; 3] = [GETS, TELLS, ENDS];

// The front of a head after an answer is not given, and stays for the next run.
#[test]
fn a_part_of_a_head_is_left(rt: HostRuntime) {
    assert!(rt; goes_so(&rt, &rt, &[GET, b"GET / HT"], &ran(&ONE)));
}

static APART: [Step; 7] = [
    Step::Parts(FIRST),
    TELLS,
    Step::Parts(SECOND),
    TELLS,
    Step::Parts(THIRD),
    TELLS,
    ENDS,
];

// Whether each request of these bytes is given alone, which come in two pieces.
fn are_told_apart<W: Threads + Wait>(rt: &HostRuntime, waits: &W, cut: usize) -> bool {
    let (front, rest) = MANY.split_at(cut.min(MANY.len()));
    goes_so(rt, waits, &[front, rest], &ran(&APART))
}

// Wherever what a client sends is cut, a read gives bytes of one request.
#[test]
fn requests_are_told_apart(rt: HostRuntime) {
    for cut in 1..MANY.len() {
        assert!(rt; are_told_apart(&rt, &rt, cut), "{cut}");
    }
}

static OF_A_FILE: [Step; 7] = [GETS, TELLS, GOES_ON, GETS, TELLS, GOES_ON, ENDS];

// Bytes of a file are no answer, whatever they look like; and the end, once it was given, stays.
#[test]
fn a_file_may_look_like_an_answer(rt: HostRuntime) {
    assert!(rt; goes_so(&rt, &rt, &[GET, GET], &ran(&OF_A_FILE)));
}

static THREE: [Step; 6] = [GETS, TELLS, GETS, TELLS, GETS, TELLS];

// What the system was told of a connection after a number of requests.
fn is_told_once<W: Threads + Wait>(rt: &HostRuntime, waits: &W) -> bool {
    let script = Script::of(&[], &[GET, GET, GET]);
    let ran = goes_by(rt, waits, &script, &ran(&THREE));
    let done = script.done.get();
    ran && done.at_once && done.write == 1_000 && done.told == 1 && done.lines == 1
}

// Writes go out at once, the system is told once how long calls may wait, and one line says where the port listens.
#[test]
fn the_system_is_told_once(rt: HostRuntime) {
    assert!(rt; is_told_once(&rt, &rt));
}

static IN_SIX_SECONDS: [Step; 3] = [
    PUTS,
    Step::Does(Does(false, true, 6_000)),
    Step::OneFails(b"a", b"b"),
];

static IN_FOUR_SECONDS: [Step; 4] = [
    PUTS,
    Step::Does(Does(false, true, 4_000)),
    Step::Gives(b"a"),
    Step::Gives(b"b"),
];

static REFUSED: [Step; 3] = [
    PUTS,
    Step::Does(Does(false, false, 1_000)),
    Step::Writes(ANSWER, false),
];

// A byte in each 6 seconds is too little after the first 10, and a byte in each 4 seconds is not yet. A write that moves nothing
// fails.
#[test]
fn a_slow_peer_is_given_up(rt: HostRuntime) {
    let pieces = [HEAD, b"a", b"b", b"c"];
    assert!(rt; goes_so(&rt, &rt, &pieces, &ran(&IN_SIX_SECONDS)));
    assert!(rt; goes_so(&rt, &rt, &pieces, &ran(&IN_FOUR_SECONDS)));
    assert!(rt; goes_so(&rt, &rt, &pieces, &ran(&REFUSED)));
}

const IN_EIGHT_SECONDS: Step = Step::Does(Does(false, true, 4_000));

static TWO_SLOW_ONES: [Step; 7] = [
    IN_EIGHT_SECONDS,
    PUTS,
    Step::Gives(b"abc"),
    TELLS,
    PUTS,
    Step::Gives(b"abc"),
    TELLS,
];

// Each request has its time, whatever those before it took.
#[test]
fn each_request_has_its_time(rt: HostRuntime) {
    let pieces = [HEAD, b"abc", HEAD, b"abc"];
    assert!(rt; goes_so(&rt, &rt, &pieces, &ran(&TWO_SLOW_ONES)));
}

static ANSWERED: [Act; 3] = [Act::Client(b"x"), Act::Runs(&ONE), Act::Shows(".")];

static UNANSWERED: [Act; 3] = [Act::Client(b"x"), Act::Runs(&[GETS, ENDS]), Act::Shows("x")];

// A connection whose request was not answered does not go on: what would come next might be the rest of that request.
#[test]
fn an_unanswered_one_is_closed(rt: HostRuntime) {
    assert!(rt; goes_so(&rt, &rt, &[GET], &ANSWERED));
    assert!(rt; goes_so(&rt, &rt, &[GET], &UNANSWERED));
}

// A client that sends on and on after a refusal. After it another one is listened to.
static DROPPED: [Act; 4] = [
    Act::Client(b"x"),
    Act::Runs(&[PUTS, TELLS, Step::Does(Does(true, true, 0))]),
    Act::Client(b""),
    Act::Meanwhile(1_200, b"x", &[Step::Gave(16_777_216, 16_900_000)]),
];

// Up to 16 MiB are dropped, however small the pieces are that come.
#[test]
fn what_a_client_still_sends_is_dropped(rt: HostRuntime) {
    assert!(rt; goes_so(&rt, &rt, &[HEAD], &DROPPED));
}
