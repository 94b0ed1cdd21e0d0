// Whether a state is a fresh start of its own relations: a copy is opened and compared.
ghost use Rattle.std.specs.Prelude.{◌≡◌};
ghost use Rattle.memory.specs.Outcome.{checks};
ghost use Rattle.memory.specs.Outcome.Outcome.{passed};
ghost use Rattle.writer.specs.Write.{is_fresh};

use memory::layout::STATE;
use monitor::open;

// Whether checked terms and state are a fresh start.
pub(crate) fn is_fresh(terms: &[u16], state: &[u64]) -> bool
    requires { passed ≡ checks terms.now state.now }
    ensures { result ≡ is_fresh terms.now state.now }
{
    let mut copy = [0u64; STATE];
    copy.copy_from_slice(&state[..STATE]);
    let _ = open(terms, &mut copy);
    state[..STATE] == copy[..]
}
