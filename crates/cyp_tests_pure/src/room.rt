ghost use Rattle.std.specs.Prelude.{◌≡◌, ◌≤◌, length};

use cyp_term::Roomy;
use std::test::Fail;

/// Puts so many numbers from 0 on at the end, for which there is room.
fn put_all(numbers: &mut Roomy<u16>, count: u16)
    requires start { length numbers.old.items ≡ 0 }
    requires room { count ≤ numbers.old.spare }
{
    for number in 0..count {
        numbers.put(number as usize, number);
    }
}

#[test]
fn puts_what_it_made_room_for(rt: HostRuntime) -> Result<(), Fail> {
    let alloc = rt.alloc();
    let mut numbers = Roomy::from_vec(Vec::new(alloc));
    numbers.reserve(alloc, 300)?;
    put_all(&mut numbers, 300);
    let items = numbers.as_slice();
    assert_eq!(rt; items.len(), 300);
    for k in 0..items.len() {
        assert_eq!(rt; items[k] as usize, k);
    }
    Ok(())
}

#[test]
fn pushes_at_the_end_and_takes_out(rt: HostRuntime) -> Result<(), Fail> {
    let alloc = rt.alloc();
    let mut numbers = Roomy::from_vec(Vec::new(alloc));
    numbers.push(alloc, 3)?;
    numbers.push(alloc, 5)?;
    numbers.push(alloc, 7)?;
    assert_eq!(rt; numbers.remove(1), 5);
    let list = numbers.into_list();
    assert!(rt; list.as_slice() == [3, 7].as_slice());
    Ok(())
}
