// Why a host has no answer.
ghost use Rattle.std.specs.Prelude.{◌≡◌, Some};
ghost use Rattle.tree.specs.Faults.{reason_number, reason_text, fault_text};

use crate::question::Question;
use std::fmt;

#[derive(Clone, Copy, Debug, PartialEq, Eq)]
pub enum HostReason {
    // The node is none of the host's, or has no style where its style is wanted.
    UnknownNode = 1,
    // There is no answer, no such candidate, or no layout stored.
    NoAnswer = 2,
}

// A fault has the question whole: none for a style, a store or a read, the layout's for a candidate.
#[derive(Clone, Copy)]
pub struct HostFault {
    pub reason: HostReason,
    pub node: u64,
    pub question: Option<Question>,
}

impl HostReason {
    // The fault of this reason. The question is apart from the node, since what is asked of a style or a stored layout is no question.
    pub fn about(self, node: u64, question: Option<Question>) -> HostFault
        ensures { result ≡ record { reason = self; node = node; question = question } }
    {
        HostFault {
            reason: self,
            node,
            question,
        }
    }
}

impl From<HostReason> for u32 {
    ghost from_gives = { λ reason number. number ≡ reason_number reason };

    fn from(reason: HostReason) -> u32 {
        reason as u32
    }
}

impl fmt::Display for HostReason {
    ghost output = { λ reason. Some (reason_text reason) };

    fn fmt<W: fmt::Write>(&self, f: &mut fmt::Formatter<W>) -> fmt::Result {
        write!(f, "reason {}", u32::from(*self))
    }
}

impl fmt::Display for HostFault {
    ghost output = { λ fault. Some (fault_text fault) };

    fn fmt<W: fmt::Write>(&self, f: &mut fmt::Formatter<W>) -> fmt::Result {
        write!(f, "{} at node {}", self.reason, self.node)
    }
}
