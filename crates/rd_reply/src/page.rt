//! A page that is appended to until its memory runs out.

ghost use Rattle.std.specs.Prelude.{◌≡◌, false, true, IsErr, IsOk};
ghost use Rattle.rd_reply.specs.Pages.{Appends};

use std::alloc::AllocError;

/// Bytes that are appended to. Where there is no room for a text, it and all that would come after
/// it are left out.
#[derive(Drop)]
pub struct Page<'a> {
    bytes: &'a mut Vec<u8>,
    is_full: bool,
}

impl<'a> Page<'a> {
    /// Appends behind these bytes.
    pub fn new(bytes: &'a mut Vec<u8>) -> Page<'a>
        ensures same { result.bytes.ghost_name ≡ bytes.entry.ghost_name }
        ensures bytes { result.bytes.now ≡ bytes.old }
        ensures is_full { result.is_full ≡ false }
    {
        Page {
            bytes,
            is_full: false,
        }
    }

    /// Appends a text.
    #[inline(always)]
    pub fn append(&mut self, text: &str)
        ensures { Appends self.old self.new text.now }
    {
        self.append_raw(text.as_bytes());
    }

    /// Appends the bytes of a text. (Inlined: most texts are a few bytes that are known where it is
    /// called.)
    #[inline(always)]
    pub fn append_raw(&mut self, bytes: &[u8])
        ensures { Appends self.old self.new bytes.now }
    {
        if !self.is_full {
            self.is_full = self.bytes.extend_from_slice(bytes).is_err();
        }
    }

    /// Whether there was room for all. An `Err` says that there was none for some text.
    pub fn end(&self) -> Result<(), AllocError>
        ensures ok { self.entry.now.is_full ≡ false → IsOk result }
        ensures err { self.entry.now.is_full ≡ true → IsErr result }
    {
        if self.is_full {
            return Err(AllocError);
        }
        Ok(())
    }
}
