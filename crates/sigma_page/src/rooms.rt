//! The rooms of a caller, in which a call lays what it wrote.

ghost use Rattle.sigma_page.specs.PageCall.{IsLaid};

/// How many bytes a call wrote.
#[repr(C)]
#[derive(Drop)]
pub struct Lengths {
    pub output: usize,
    pub errors: usize,
}

/// Lays the bytes into the room, as far as it reaches, and answers how many bytes there are.
pub fn lay(bytes: &[u8], room: &mut [u8]) -> usize
    ensures { IsLaid bytes.now result room.new }
{
    let count = bytes.len().min(room.len());
    room[..count].copy_from_slice(&bytes[..count]);
    bytes.len()
}
