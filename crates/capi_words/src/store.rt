// Words stored at the start of those that are lent.
ghost use Rattle.std.specs.Prelude.{◌≡◌, ◌≤◌, length};
ghost use Rattle.report.specs.Attach.{over};

// The words are stored from the first on; the others stay.
pub fn store_words(lent: &mut [u64], words: &[u64])
    requires { length words.now ≤ length lent.old }
    ensures { lent.new ≡ over words.now lent.old }
{
    lent[..words.len()].copy_from_slice(words);
}
