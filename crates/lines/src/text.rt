// The text of a listing as it is put together: bytes in a lent list, and how many of them are written.
ghost use Rattle.std.specs.Prelude.{◌≤◌, length};

mod putting;

// What is written stands at the start of the list, and there is room for as many bytes more as follow it (`specs/Texts`). Fields and no model: by
// the list's ghost name a caller knows what its own list holds afterwards.
#[derive(Drop)]
pub struct Text<'a> {
    pub list: &'a mut [u8],
    pub len: usize,
    ghost within: { len ≤ length list.now },
}
