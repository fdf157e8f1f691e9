//! Where the string of a text lies: with that text alone, or with all texts that share it.

ghost use Rattle.std.specs.Prelude.{◌≡◌, IfOk, string_bytes};
ghost use Rattle.witx_base.specs.Stores.{bytes_in};

use crate::memory::OutOfMemory;
use std::rc::Rc;

/// The string of a text, its own or shared with other texts.
#[derive(Drop)]
pub enum Store {
    /// No other text has the string.
    Own(String),
    /// The string lies once for all texts that have it.
    Shared(Rc<String>),
}

impl Store {
    /// The string.
    pub fn string(&self) -> &String
        ensures { string_bytes result.now ≡ bytes_in self.now }
    {
        match self {
            Store::Own(string) => string,
            Store::Shared(string) => string.as_ref(),
        }
    }

    /// The same string a second time: copied where it is the text's own, shared where it is shared.
    pub fn copy(&self) -> Result<Store, OutOfMemory>
        ensures { IfOk result (λ made. bytes_in made ≡ bytes_in self.now) }
    {
        match self {
            Store::Own(string) => Ok(Store::Own(string.clone()?)),
            Store::Shared(string) => Ok(Store::Shared(string.clone()?)),
        }
    }

    /// The same string, from now on to be shared; it isn't copied.
    pub fn share(self) -> Result<Store, OutOfMemory>
        ensures { IfOk result (λ made. bytes_in made ≡ bytes_in self) }
    {
        match self {
            Store::Own(string) => {
                let alloc = *string.allocator();
                Ok(Store::Shared(Rc::new(alloc, string)?))
            }
            Store::Shared(string) => Ok(Store::Shared(string)),
        }
    }
}
