ghost use Rattle.std.specs.Prelude.{◌≡◌, ◌++◌, ◌+◌, ◌<◌, ◌^◌, IfOk, OnOk};
ghost use Rattle.cyp_print.specs.Found.{IsFound};
ghost use Rattle.cyp_print.specs.Lines.{parameter_text};
ghost use Rattle.cyp_kernel.specs.Compile.{program_of};
ghost use Rattle.cyp_prog.specs.ProgramText.{join_with_comma, params_text, program_text};
ghost use Rattle.cyp_tree.specs.Derivations.{plain_derivation};

use crate::body::add_body;
use crate::bytes::{add, add_variable};
use crate::main_name::add_main_name;
use cyp_heap::Node;
use cyp_space::Solved;
use cyp_step::Rule;
use cyp_term::{List, NoMemory, Text};
use std::alloc::Global;

/// Writes the name of the parameter at this place, with a comma before it if it isn't the first.
fn add_parameter(text: &mut Vec<u8>, place: u64) -> Result<(), NoMemory>
    requires { place + 1 < 2 ^ 64 }
    ensures { OnOk result (text.new.items ≡ text.old.items ++ parameter_text place) }
{
    if place > 0 {
        add(text, b", ")?;
    }
    add_variable(text, place + 1)
}

/// Writes the names of so many parameters.
fn add_parameters(text: &mut Vec<u8>, count: u64) -> Result<(), NoMemory>
    ensures { OnOk result (text.new.items ≡ text.old.items ++ join_with_comma (params_text 1 count)) }
{
    for place in 0..count {
        add_parameter(text, place)?;
    }
    Ok(())
}

/// The printed form of the program that a derivation by rules that unfold and call nothing stands
/// for: one procedure of this name.
pub fn program_text(
    alloc: Global,
    name: &[u8],
    found: &Solved<Rule, Node>,
) -> Result<Text, NoMemory>
    requires { IsFound (plain_derivation found.now) }
    ensures { IfOk result (λ text. text ≡ program_text (program_of name.now (plain_derivation found.now))) }
{
    let mut text = Vec::new(alloc);
    add(&mut text, b"void ")?;
    add_main_name(&mut text, name)?;
    add(&mut text, b"(")?;
    add_parameters(&mut text, found.node.get().goal().program.len() as u64)?;
    add(&mut text, b") {\n")?;
    add_body(alloc, &mut text, found)?;
    add(&mut text, b"}\n")?;
    Ok(List::from_vec(text))
}
