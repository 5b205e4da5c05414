// A table of reasons, each with whether it applies: the first that does is the refusal.
#![tactic(auto)]

ghost use Rattle.std.specs.Prelude.{◌≡◌};
ghost use Rattle.reasons.specs.First.{first_of};

// The first reason that applies, as the error; no error where none does.
pub fn first<R: Copy>(reasons: &[(bool, R)]) -> Result<(), R>
    ensures { result ≡ first_of reasons.now }
{
    for (applies, reason) in reasons {
        if *applies {
            return Err(*reason);
        }
    }
    Ok(())
}
