//! Lists of variables that grow without repeats.

ghost use Rattle.std.specs.Prelude.{◌≡◌, OnOk};
ghost use Rattle.cyp_term.specs.Terms.{var_eq, var_in, with_all_new, with_new};

use crate::fail::NoMemory;
use crate::term::Var;

fn is_among(var: Var, vars: &[Var]) -> bool
    ensures { result ≡ var_in var vars.now }
{
    vars.iter().any(|other| var == *other)
}

/// Adds a variable that isn't there yet.
pub(crate) fn add_var(vars: &mut Vec<Var>, var: Var) -> Result<(), NoMemory>
    ensures { OnOk result (vars.new.items ≡ with_new var_eq vars.old.items var) }
{
    if !is_among(var, vars.as_slice()) {
        vars.push(var)?;
    }
    Ok(())
}

/// Adds each variable that isn't there yet.
pub(crate) fn add_vars(vars: &mut Vec<Var>, more: &[Var]) -> Result<(), NoMemory>
    ensures { OnOk result (vars.new.items ≡ with_all_new var_eq vars.old.items more.now) }
{
    for var in more {
        add_var(vars, *var)?;
    }
    Ok(())
}
