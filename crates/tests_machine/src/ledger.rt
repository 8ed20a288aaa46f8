//! The ledger of pairs: what each call answers in each state.

use std::test::Fail;
use uc_ledger::{Ledger, NotThere, State};

#[derive(Clone, Copy)]
enum Call {
    Take(u32),
    Finish(u32),
    GiveBack(u32),
    Orphan,
}

// The state in which the ledger refuses a call about a pair, if it does.
fn refusal(ledger: &mut Ledger, pair: u64, call: Call) -> Option<Option<State>> {
    let answer = match call {
        Call::Take(worker) => ledger.take(pair, worker),
        Call::Finish(worker) => ledger.finish(pair, worker),
        Call::GiveBack(worker) => ledger.give_back(pair, worker),
        Call::Orphan => ledger.orphan(pair),
    };
    match answer {
        Ok(()) => None,
        Err(NotThere(state)) => Some(state),
    }
}

const WAITING: Option<State> = Some(State::Waiting);

const OUT: Option<State> = Some(State::Out(7));

const LARGE: Option<State> = Some(State::Large);

// One row a call: the pair, the call, the state in which it is refused, if it is, and the pair's state after it.
const CALLS: &[(u64, Call, Option<Option<State>>, Option<State>)] = &[
    (0, Call::Finish(7), Some(WAITING), WAITING),
    (0, Call::Take(7), None, OUT),
    (0, Call::Take(7), Some(OUT), OUT),
    (0, Call::Finish(6), Some(OUT), OUT),
    (0, Call::GiveBack(6), Some(OUT), OUT),
    (0, Call::Orphan, Some(OUT), OUT),
    (0, Call::GiveBack(7), None, WAITING),
    (0, Call::Take(6), None, Some(State::Out(6))),
    (0, Call::Finish(6), None, Some(State::Done)),
    (2, Call::Orphan, None, Some(State::Orphan)),
    (1, Call::Take(0), Some(LARGE), LARGE),
    (3, Call::Take(0), Some(None), None),
];

#[test]
fn one_state_a_pair(rt: HostRuntime) -> Result<(), Fail> {
    let mut ledger = Ledger::new(rt.alloc())?;
    assert!(rt; ledger.is_empty());
    ledger.reserve(rt.alloc(), 2)?;
    ledger.meet(rt.alloc(), &[State::Waiting, State::Large, State::Waiting])?;
    for (pair, call, refused, after) in CALLS {
        assert!(rt;
            refusal(&mut ledger, *pair, *call) == *refused && ledger.state(*pair) == *after
        );
    }
    assert!(rt; ledger.len() == 3);
    Ok(())
}
