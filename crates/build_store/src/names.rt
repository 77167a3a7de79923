ghost use Rattle.std.specs.Prelude.{◌≡◌, ◌≤◌, IfOk, length};
ghost use Rattle.build_store.specs.Names.{beside as beside_of, next_line as line_after, quoted_len as quoted_len_of};

use cm_core::{NoMemory, PathText};
use std::alloc::Global;
use unit_fold::lines::{path_or_none, path_text};

/// The number of the line after a line. The count stands still at its type's end.
pub fn next_line(number: u32) -> u32
    ensures { result ≡ line_after number }
{
    number.saturating_add(1)
}

/// The path of a text that starts at the folder of a file.
pub fn beside(alloc: Global, file: &PathText, text: &[u8]) -> Result<Option<PathText>, NoMemory>
    ensures { IfOk result (λ p. p ≡ beside_of file.now text.now) }
{
    let Some(text) = path_text(text) else {
        return Ok(None);
    };
    let folder = file.folder(alloc)?;
    path_or_none(folder.join(alloc, text))
}

/// How many bytes of a text stand before its first quote.
pub fn quoted_len(text: &[u8]) -> usize
    ensures len { result ≡ quoted_len_of text.now }
    ensures within { result ≤ length text.now }
{
    text.iter().take_while(|c| **c != b'"').count()
}
