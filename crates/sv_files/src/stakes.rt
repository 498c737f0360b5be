// The stakes of the inodes that are at home.
ghost use Rattle.std.specs.Prelude.{◌≡◌, ◌<◌, Some, None, IfNone, length, set};
ghost use Rattle.sv_files.specs.FileRule.{home_at};

// Takes the stake of an inode, where it is at home.
pub fn take_stake<S>(stakes: &mut Vec<Option<S>>, number: u16) -> Option<S>
    ensures taken { result ≡ home_at stakes.old.items number }
    ensures away { stakes.new.items ≡ set stakes.old.items number None }
    ensures none { IfNone result (stakes.new.items ≡ stakes.old.items) }
{
    let place = usize::from(number);
    if place >= stakes.len() {
        return None;
    }
    stakes[place].take()
}

// Puts the stake of an inode back.
pub fn put_stake<S>(stakes: &mut Vec<Option<S>>, number: u16, stake: S)
    requires inside { number < length stakes.old.items }
    requires away { home_at stakes.old.items number ≡ None }
    ensures { stakes.new.items ≡ set stakes.old.items number (Some stake) }
{
    match stakes[usize::from(number)].replace(stake) {
        None => {}
        Some(_) => unreachable!(),
    }
}
