ghost use Rattle.std.specs.Prelude.{◌≡◌, ◌≤◌, IfOk, filter, not};
ghost use Rattle.std.specs.List.{list_all};
ghost use Rattle.cyp_sets.specs.Dealing.{ListsMean, allowed_regions, integer, shown_in};
ghost use Rattle.cyp_sets.specs.Masks.{obeys, shows};

use crate::masks::{Mask, Rule, Want};
use cyp_term::{List, NoMemory};
use std::alloc::Global;

fn is_allowed(rules: &[Rule], at: Mask) -> bool
    ensures { result ≡ list_all (obeys at) rules.now }
{
    rules.iter().all(|rule| rule.allows(at))
}

/// The regions below `count` that all rules allow an integer of these classes.
pub(crate) fn regions_of(
    alloc: Global,
    rules: &[Rule],
    count: u16,
    classes: u8,
) -> Result<List<u16>, NoMemory>
    ensures { IfOk result (λ rs. rs ≡ allowed_regions rules.now count classes) }
{
    let regions = (0..count)
        .filter(|vars| is_allowed(
            rules,
            Mask {
                vars: *vars,
                classes,
            },
        ))
        .collect(alloc)?;
    Ok(List::from_vec(regions))
}

/// Those of the regions in which an integer of these classes is what is wanted.
pub(crate) fn regions_showing(
    alloc: Global,
    want: Want,
    regions: &[u16],
    classes: u8,
) -> Result<List<u16>, NoMemory>
    ensures { IfOk result (λ rs. rs ≡ filter (λ r. shows (integer classes r) want) regions.now) }
{
    let shown = regions
        .iter()
        .copied()
        .filter(|vars| want.is_shown(Mask {
            vars: *vars,
            classes,
        }))
        .collect(alloc)?;
    Ok(List::from_vec(shown))
}

/// Those of the regions in which an integer of these classes isn't what is wanted.
pub(crate) fn regions_hiding(
    alloc: Global,
    want: Want,
    regions: &[u16],
    classes: u8,
) -> Result<List<u16>, NoMemory>
    ensures { IfOk result (λ rs. rs ≡ filter (λ r. not (shows (integer classes r) want)) regions.now) }
{
    let others = regions
        .iter()
        .copied()
        .filter(|vars| !want.is_shown(Mask {
            vars: *vars,
            classes,
        }))
        .collect(alloc)?;
    Ok(List::from_vec(others))
}

/// The regions that the rules allow each class, at the classes' places, or `None` where some class has none.
pub(crate) fn class_regions(
    alloc: Global,
    rules: &[Rule],
    count: u16,
    classes: usize,
) -> Result<Option<List<List<u16>>>, NoMemory>
    requires { classes ≤ 6 }
    ensures { IfOk result (ListsMean rules.now count classes) }
{
    let mut lists = Vec::new(alloc);
    for place in 0..classes {
        let regions = regions_of(alloc, rules, count, 1 << place)?;
        if regions.len() == 0 {
            return Ok(None);
        }
        lists.push(regions)?;
    }
    Ok(Some(List::from_vec(lists)))
}

/// Whether an integer of these classes is what is wanted in some of the regions.
pub(crate) fn is_shown_in(want: Want, regions: &[u16], classes: u8) -> bool
    ensures { result ≡ shown_in regions.now classes want }
{
    regions.iter().any(|vars| want.is_shown(Mask {
        vars: *vars,
        classes,
    }))
}

/// What none of the integers outside all classes shows.
pub(crate) fn wants_left(
    alloc: Global,
    wants: &[Want],
    outside: &[u16],
) -> Result<List<Want>, NoMemory>
    ensures { IfOk result (λ ws. ws ≡ filter (λ w. not (shown_in outside.now 0 w)) wants.now) }
{
    let left = wants
        .iter()
        .copied()
        .filter(|want| !is_shown_in(*want, outside, 0))
        .collect(alloc)?;
    Ok(List::from_vec(left))
}
