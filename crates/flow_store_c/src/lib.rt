// The search of `flow_store` for a free slot, for a caller in another language.
#![tactic(auto)]

ghost use Rattle.std.specs.Prelude.{◌≡◌, ◌≢◌, length};
ghost use Rattle.model.specs.Sizes.{slot_count};
ghost use Rattle.bit_words.specs.View.{LeastClear};
ghost use Rattle.flow_store.specs.View.{slot_words};

// The lowest free slot of any number of words that the caller lends: SLOTS where none is free, and where they aren't SLOT_WORDS.
#[unsafe(no_mangle)]
pub extern "C" fn devvonur_first_free(bits: &[u64]) -> usize
    ensures least_clear { length bits.now ≡ slot_words → LeastClear bits.now result }
    ensures value { (length bits.now ≢ slot_words) → result ≡ slot_count }
{
    flow_store::devvonur_first_free(bits)
}
