// The three buffers, of sizes that fit.
ghost use Rattle.std.specs.Prelude.{◌≡◌, true, length};
ghost use Rattle.rules.specs.Flat.{memory_fits};

use sheet::Sheet;

#[derive(Drop)]
pub struct Machine<'a> {
    pub memory: &'a mut [u8],
    pub table: &'a mut [u8],
    pub sheet: &'a mut Sheet,
    pub ghost sized: { memory_fits (length table.now) (length memory.now) ≡ true },
}
