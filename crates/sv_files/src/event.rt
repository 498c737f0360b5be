// What passes of the file turn sleep on.
ghost use Rattle.std.specs.Prelude.{◌<◌};

// An inode that is locked is waited for at one of so many events.
pub const INODE_EVENTS: u32 = 64;

// The event of an inode.
pub fn inode_event(number: u16) -> u32
    ensures { result < 64 }
{
    u32::from(number) % INODE_EVENTS
}
