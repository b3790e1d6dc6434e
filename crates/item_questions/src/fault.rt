// Why an item cannot be placed.
ghost use Rattle.std.specs.Prelude.{◌≡◌};
ghost use Rattle.item_questions.specs.Faults.{fault_number, from_host, from_calc};

use item_lengths::CalcOutOfLimits;
use style::range::StyleField;
use tree::fault::HostFault;

// The host did not answer, or a number of the style, of a calculation or of an answer is out of its range.
#[derive(Clone, Copy)]
pub enum ItemFault {
    Host(HostFault),
    StyleOutOfRange(StyleField),
    CalcOutOfLimits(u32),
    SizeOutOfLimits,
    LayoutOutOfLimits,
    CandidateOutOfLimits(u32),
}

// The numbers that docs/RULES.md gives the refusals: 11 where the host did not answer, 12 where a number is out of range.
impl From<ItemFault> for u8 {
    ghost from_gives = { λ fault n. n ≡ fault_number fault };

    fn from(fault: ItemFault) -> u8 {
        match fault {
            ItemFault::Host(_) => 11,
            _ => 12,
        }
    }
}

impl From<HostFault> for ItemFault {
    ghost from_gives = { λ fault r. r ≡ from_host fault };

    fn from(fault: HostFault) -> ItemFault {
        ItemFault::Host(fault)
    }
}

impl From<CalcOutOfLimits> for ItemFault {
    ghost from_gives = { λ fault r. r ≡ from_calc fault };

    fn from(fault: CalcOutOfLimits) -> ItemFault {
        ItemFault::CalcOutOfLimits(fault.handle)
    }
}
