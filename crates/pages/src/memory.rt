// Guest memory: its size, and zeros in a page.
ghost use Rattle.std.specs.Prelude.{◌≡◌, ◌<◌, length, set};
ghost use Rattle.rules.specs.Words.{page_size};
ghost use Rattle.rules.specs.Machine.{zeros};
ghost use Rattle.rules.specs.Flat.{parts, memory_fits};

use crate::{LEAST_PAGES, MOST_PAGES, PAGE_SIZE};

// Fills a part of memory with zeros.
#[tactic(auto, unfolding(rules::specs::Machine::zeros))]
pub fn fill(part: &mut [u8])
    ensures { part.new ≡ zeros (length part.old) }
{
    part.fill(0);
}

pub fn fill_page(memory: &mut [u8], page: usize)
    requires { page < length (parts page_size memory.old) }
    ensures { parts page_size memory.new ≡ set (parts page_size memory.old) page (zeros page_size) }
{
    let start = PAGE_SIZE * page;
    fill(&mut memory[start..start + PAGE_SIZE]);
}

// The sizes of table and memory fit each other, and are in range.
#[tactic(auto, unfolding(rules::specs::Flat::memory_fits, rules::specs::Words::between, rules::specs::Words::least_pages, rules::specs::Words::most_pages, rules::specs::Words::page_size))]
pub fn fits(n: usize, bytes: usize) -> bool
    ensures { result ≡ memory_fits n bytes }
{
    (LEAST_PAGES..=MOST_PAGES).contains(&n) && bytes == PAGE_SIZE * n
}
