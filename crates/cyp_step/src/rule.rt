ghost use Rattle.std.specs.Prelude.{◌≡◌};

use cyp_heap::Node;
use cyp_term::{Copied, List, NoMemory, Shared, Var};
use std::alloc::Global;

/// A call of a companion: its link, and the present chunk of each chunk of its precondition.
#[derive(Debug, Drop, PartialEq, Eq, Hash)]
pub struct CallBy {
    pub link: u8,
    pub pairs: List<u8>,
}

/// A rule of the step relation. A number is the place of the chunk of the precondition that is used;
/// of `ByClose` it is the clause's.
#[derive(Debug, Drop, PartialEq, Eq, Hash)]
pub enum Rule {
    ByInconsistent,
    ByEmp,
    ByRead(u8),
    ByFrame(u8),
    ByWrite(u8),
    ByFree(u8),
    ByAlloc,
    ByCall(CallBy),
    ByOpen(u8),
    ByClose(u8),
    ByPick(Var),
}

/// A rule that is allowed at a node, with its premises.
#[derive(Debug, Drop)]
pub struct Row {
    pub rule: Rule,
    pub premises: List<Shared<Node>>,
}

impl Copied for CallBy {
    fn copy(&self, alloc: Global) -> Result<CallBy, NoMemory> {
        Ok(CallBy {
            link: self.link,
            pairs: self.pairs.copy(alloc)?,
        })
    }
}

impl Copied for Rule {
    fn copy(&self, alloc: Global) -> Result<Rule, NoMemory> {
        Ok(match self {
            Rule::ByInconsistent => Rule::ByInconsistent,
            Rule::ByEmp => Rule::ByEmp,
            Rule::ByRead(place) => Rule::ByRead(*place),
            Rule::ByFrame(place) => Rule::ByFrame(*place),
            Rule::ByWrite(place) => Rule::ByWrite(*place),
            Rule::ByFree(place) => Rule::ByFree(*place),
            Rule::ByAlloc => Rule::ByAlloc,
            Rule::ByCall(call) => Rule::ByCall(call.copy(alloc)?),
            Rule::ByOpen(place) => Rule::ByOpen(*place),
            Rule::ByClose(clause) => Rule::ByClose(*clause),
            Rule::ByPick(var) => Rule::ByPick(*var),
        })
    }
}
