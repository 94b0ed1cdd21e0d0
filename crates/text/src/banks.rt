// Reading a terms file of the old form into two banks, which start together at moment 0.
ghost use Rattle.std.specs.Prelude.{◌≡◌};
ghost use Rattle.memory.specs.Outcome.{outcome_of};
ghost use Rattle.text.specs.Banks.{banks_read_gives, banks_read_terms, banks_read_relations, banks_read_own};

use memory::layout::OWN;
use memory::refusal::Refusal;
use monitor::banks::open;
use reader::read::fill_relations;

// Reads a terms file of the old form. An accepted text fills the named words of terms, of relations and of both banks'
// own words, at moment 0; a refusal has its number and line and leaves all memory as lent. A stored text is none of the
// old form: refused with 1 at line 1.
pub fn read(
    text: &[u8],
    terms: &mut [u16],
    relations: &mut [u64],
    first: &mut [u64],
    second: &mut [u64],
) -> Result<(), Refusal>
    ensures result_value { outcome_of result ≡ banks_read_gives text.now terms.old relations.old first.old second.old }
    ensures terms_after { terms.new ≡ banks_read_terms text.now terms.old relations.old first.old second.old }
    ensures relations_after { relations.new ≡ banks_read_relations text.now terms.old relations.old first.old second.old }
    ensures first_after { first.new ≡ banks_read_own text.now terms.old relations.old first.old second.old first.old }
    ensures second_after { second.new ≡ banks_read_own text.now terms.old relations.old first.old second.old second.old }
{
    if first.len() < OWN {
        return Err(Refusal::Short);
    }
    if second.len() < OWN {
        return Err(Refusal::Short);
    }
    fill_relations(text, terms, relations)?;
    open(terms, relations, first, second)
}
