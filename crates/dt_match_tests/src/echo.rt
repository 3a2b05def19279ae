//! A host that answers by the values that it was handed.

ghost use Rattle.std.specs.Prelude.{◌≡◌, pos, slice_get, unwrap_or};

use dt_host::Host;
use dt_values::{Name, Values};

/// It takes a call whose first value is that of the call before. Its functions answer 1 where that is 7, and else 2.
#[derive(Drop)]
pub struct Echo {
    pub last: i128,
}

impl Host for Echo {
    ghost use Rattle.std.specs.Ordering.{int_eq};
    ghost use Rattle.std.specs.Prelude.{ℤ, pos, slice_get, unwrap_or, if◌then◌else◌};

    ghost State = { ℤ };

    ghost host = { λ _. record {
      outcome = λ s c. int_eq (unwrap_or (slice_get c.values 0) (pos 0)) s;
      next = λ s c. unwrap_or (slice_get c.values 0) (pos 0);
      answer = λ s function argument. if int_eq s (pos 7) then pos 1 else pos 2;
    } };

    ghost state = { λ echo. echo.last };

    fn translate(&mut self, name: Name, values: &Values) -> bool {
        let _name = name;
        let (given, _) = values.items.split_at(values.members.len());
        let first = first_of(given);
        let outcome = first == self.last;
        self.last = first;
        outcome
    }

    fn function(&self, name: Name, arg: Option<i32>) -> i32 {
        let (_name, _arg) = (name, arg);
        if self.last == 7 { 1 } else { 2 }
    }
}

// The first of the values. 0 where there is none.
fn first_of(values: &[i128]) -> i128
    ensures { result ≡ unwrap_or (slice_get values.now 0) (pos 0) }
{
    values.first().copied().unwrap_or(0)
}
