// The session that the terminal holds behind an authentication.
#![tactic(auto)]

ghost use Rattle.std.specs.Prelude.{◌≡◌};
ghost use Rattle.opening.specs.Opening.{opened};

use held::Draft;

// A session opened with the key k and RndA a.
pub fn opened(mut draft: Draft, k: [u8; 16], a: [u8; 16]) -> Draft
    ensures { result ≡ opened draft k a }
{
    let b = draft.random;
    let key = derivation::mac_key(k, a, b);
    let ti = draft.identifier;
    draft.held = true;
    draft.key = key;
    draft.ti = ti;
    draft.counter = 0;
    draft
}
