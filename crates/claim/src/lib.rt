// Theory only: the main claim about a bench of seats. Each function carries one theorem in its contract and does nothing.
#![tactic(auto)]

ghost use Rattle.claim.specs.Claim.{RefusalsHold, ClaimHolds};

use encoding::methods::Methods;
use ring::Ring;

// A call is refused exactly where its tests say so, and a refusal changes nothing.
pub fn refusals_are_exact<R: Ring>()
    ensures { RefusalsHold R.Ring }
{}

// After any list of calls, whatever words the outside seats placed, what inside seats have opened is right.
pub fn claim_holds<R: Ring, M: Methods>()
    ensures { ClaimHolds R.Ring M.Methods.method }
{}
