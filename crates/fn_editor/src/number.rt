ghost use Rattle.std.specs.Prelude.{◌≡◌, ◌+◌, ◌<◌, ◌≤◌};
ghost use Rattle.fn_editor.specs.Number.{line_number, most_number, most_whole, next, tenth, whole_part};

use std::marker::Model;

/// The greatest whole part of the number of a line.
pub const WHOLE_LIMIT: u16 = 999;

/// The number of a line, n or n.d, at most 1000. It is seen as a count of tenths.
#[derive(Clone, Copy, Debug, PartialEq, Eq, PartialOrd, Ord)]
pub struct LineNumber {
    tenths: u16,
}

impl Model for LineNumber {
    ghost use Rattle.std.specs.Prelude.{◌≤◌, ℕ};
    ghost use Rattle.fn_editor.specs.Number.{most_number};

    ghost Value = { ℕ };

    ghost view = { λ n. n.tenths };

    ghost invariant = { λ n. n.tenths ≤ most_number };

    ghost inverse = { λ tenths. record { tenths = tenths } };
}

impl LineNumber {
    /// The number of a whole part and of the digit behind the point, 0 where there is none.
    pub fn of(whole: u16, tenth: u8) -> LineNumber
        requires whole { whole ≤ most_whole }
        requires tenth { tenth < 10 }
        ensures { result ≡ line_number whole tenth }
    {
        LineNumber {
            tenths: 10 * whole + u16::from(tenth),
        }
    }

    /// The whole part.
    pub fn whole_part(self) -> u16
        ensures value { result ≡ whole_part self }
        ensures within { result ≤ most_whole + 1 }
        ensures limit { self ≤ most_number }
    {
        self.tenths / 10
    }

    /// The digit behind the point, 0 where there is none.
    pub fn tenth(self) -> u8
        ensures value { result ≡ tenth self }
        ensures digit { result < 10 }
    {
        (self.tenths % 10) as u8
    }

    /// The number that comes next: one more, or behind a point a tenth more, and behind the ninth tenth the next whole
    /// number.
    pub fn next(self) -> LineNumber
        requires { whole_part self ≤ most_whole }
        ensures { result ≡ next self }
    {
        let step = if self.tenths % 10 == 0 { 10 } else { 1 };
        LineNumber {
            tenths: self.tenths + step,
        }
    }
}
