//! What is looked after while all desks are inside requests, seen from a stand-in for the system's network.

use crate::courses::{GET, client, mark_of};
use crate::stand_in::{Does, Script, StandIn};
use outside::{Failed, Port};
use outside_pace::{Pace, Running, ScriptPace};
use outside_sockets::TcpPort;
use std::io::{Eprint, Write};
use std::net::{Net, TcpStream};
use std::sync::Wait;
use std::time::Clock;

// The front of a head comes of one connection, and a whole one of another. Whether the first one has the time of a head and no
// longer, and the other one stays.
fn have_their_time<Q: Pace>(pace: &mut Q, drips: &mut TcpStream, asks: &mut TcpStream) -> bool {
    if drips.write_all(b"GET / HT").is_err() || asks.write_all(GET).is_err() {
        return false;
    }
    let stays = pace.pause(8) && mark_of(drips) == '.';
    stays && pace.pause(8) && mark_of(drips) != '.' && mark_of(asks) == '.'
}

// Whether that is so while the only desk has a request.
fn are_looked_after<P: Port, Q: Pace>(
    rt: &HostRuntime,
    number: u16,
    port: &mut P,
    pace: &mut Q,
) -> Option<bool> {
    let _served = client(rt, number, b"x")?;
    let mut drips = client(rt, number, b"")?;
    let mut asks = client(rt, number, b"")?;
    match port.next() {
        Ok(Some(link)) => {
            let stayed = have_their_time(pace, &mut drips, &mut asks);
            port.back(link);
            Some(stayed)
        }
        Ok(None) | Err(Failed) => None,
    }
}

// The same of a listener over a network, which the patrol has too.
fn is_patrolled_over<R: Net + Clock + Eprint + Clone + Drop, W: Wait + Drop>(
    rt: &HostRuntime,
    waits: W,
    net: R,
    patrol: R,
) -> Option<bool> {
    let running = Running::new(rt.alloc(), 1).ok()?;
    let mut port = TcpPort::bind(net, waits, rt.alloc(), 0, running);
    let answers = vec![in rt.alloc(); true; 18].ok()?;
    let mut pace = port.pace(patrol, ScriptPace::new(rt.alloc(), answers).ok()?);
    let number = port.number()?;
    are_looked_after(rt, number, &mut port, &mut pace)
}

// The same over a network by a script.
fn is_patrolled<'a, W: Wait>(
    rt: &'a HostRuntime,
    waits: &W,
    script: &'a Script<'a>,
) -> Option<bool> {
    let net = StandIn { rt, script };
    is_patrolled_over(rt, waits, net, net)
}

// Each look at the clock takes a second.
#[test]
fn a_head_has_its_time_while_all_desks_are_busy(rt: HostRuntime) {
    let script = Script::of(&[], &[GET]);
    script.does.set(Does(false, true, 1_000));
    assert!(rt; is_patrolled(&rt, &rt, &script) == Some(true));
}
