//! Where a run stands, and what a statement makes of it.

ghost use Rattle.std.specs.Prelude.{◌≡◌};
ghost use Rattle.c_eval.specs.Turns.{after_call, live_turn, one_more, tested};

use crate::live::Live;

/// How a run ended.
#[derive(Clone, Copy, PartialEq, Eq)]
pub enum Ended {
    True,
    False,
    Stuck,
}

/// Where a run stands: the live set, if there is one, and the number of tests, which stands still at 2^64 - 1.
#[derive(Clone, Copy)]
pub struct Standing {
    pub live: Option<Live>,
    pub tests: u64,
}

/// After a statement a run goes on, or it has ended.
#[derive(Clone, Copy)]
pub enum Turn {
    Going(Standing),
    Ended(Ended, Standing),
}

/// An `if`, or a `switch`, counts one test.
pub(crate) fn tested(standing: Standing) -> Standing
    ensures { result ≡ tested standing }
{
    Standing {
        live: standing.live,
        tests: one_more(standing.tests),
    }
}

fn one_more(tests: u64) -> u64
    ensures { result ≡ one_more tests }
{
    if tests == u64::MAX { tests } else { tests + 1 }
}

/// A set is live now. Without one the run is stuck.
pub(crate) fn live_turn(live: Option<Live>, standing: Standing) -> Turn
    ensures { result ≡ live_turn live standing }
{
    match live {
        Some(live) => Turn::Going(Standing {
            live: Some(live),
            tests: standing.tests,
        }),
        None => Turn::Ended(Ended::Stuck, standing),
    }
}

/// After a call no set is live. True ends the run.
pub(crate) fn after_call(outcome: bool, standing: Standing) -> Turn
    ensures { result ≡ after_call outcome standing }
{
    let standing = Standing {
        live: None,
        tests: standing.tests,
    };
    if outcome {
        Turn::Ended(Ended::True, standing)
    } else {
        Turn::Going(standing)
    }
}
