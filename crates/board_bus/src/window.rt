//! The host window.
#![tactic(auto, unfolding(crate::specs::Window::host_says))]

ghost use Rattle.std.specs.Prelude.{◌≡◌, ◌⊎◌, ◌%◌};
ghost use Rattle.guest_ram.specs.Bytes.{HasPart, IsAligned};
ghost use Rattle.board_bus.specs.Window.{host_says, word_says};

use guest_ram::GuestRam;

/// What a program says to its host.
#[derive(Clone, Copy, PartialEq, Eq, Debug)]
pub enum HostSays {
    /// Nothing, or there is no window.
    Nothing,
    /// That it ends, with this code.
    End(u64),
    /// That this byte goes to the console.
    Send(u8),
    /// This word, which is not understood.
    Bad(u64),
}

/// What the window at the guest address `tohost` says, and changes nothing. There is no window where
/// `tohost` is 0; else it is a multiple of 8 whose 8 bytes lie in memory.
pub fn host_word(tohost: u64, ram: &GuestRam) -> HostSays
    requires { (tohost ≡ 0) ⊎ (IsAligned tohost 8 × HasPart ram.now tohost 8) }
    ensures { result ≡ host_says tohost ram.now }
{
    if tohost == 0 {
        HostSays::Nothing
    } else {
        word_says(ram.read(tohost, 8))
    }
}

/// What a word of the window says.
fn word_says(w: u64) -> HostSays
    ensures { result ≡ word_says w }
{
    let device_and_command = w >> 48;
    if w == 0 {
        HostSays::Nothing
    } else if device_and_command == 0 && w % 2 == 1 {
        HostSays::End(w / 2)
    } else if device_and_command == 0x0101 {
        HostSays::Send((w % 256) as u8)
    } else {
        HostSays::Bad(w)
    }
}
