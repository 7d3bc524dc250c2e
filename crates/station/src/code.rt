// An answer as the number that C is handed (docs/RULES.md, "From C").
ghost use Rattle.std.specs.Prelude.{◌≡◌};
ghost use Rattle.station.specs.Code.{code_of, Small};

use tables::Refusal;

// The number of an answer: the count, or minus the number of the refusal.
// kept: a count and a refusal are one signed number, as C is handed it.
pub(crate) fn number_of(a: Result<usize, Refusal>) -> i64
    requires { Small a }
    ensures { result ≡ code_of a }
{
    match a {
        Ok(n) => n as i64,
        Err(r) => -i64::from(u8::from(r)),
    }
}
