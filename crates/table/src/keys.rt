// The key words of a longer table: one for each arc, which says whether its leaf has a key.
ghost use Rattle.std.specs.Prelude.{◌≡◌, ◌≤◌, length};
ghost use Rattle.procedure.specs.Table.{key_word, key_words};

use sheet::kind::Kind;

// The word of an arc whose leaf has this own key, or none.
#[tactic(auto, unfolding(sheet::specs::Words::top))]
pub fn key_word(own: u32) -> u32
    ensures { result ≡ key_word own }
{
    Kind::Key.word(u32::from(own < sheet::NONE))
}

// Writes the words of the first arcs, as many as there is room for.
pub fn write_keys(own: &[u32], words: &mut [u32])
    requires { length words.old ≤ length own.now }
    ensures { words.new ≡ key_words own.now (length words.old) }
{
    for (a, word) in words.iter_mut().enumerate() {
        *word = key_word(own[a]);
    }
}
