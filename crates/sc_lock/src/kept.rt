//! What a lock may keep.
ghost use Rattle.std.specs.Prelude.{◌≡◌, ℕ, ◌<◌, List, length, take, Option, Some};

/// A value with a journal of entries, which each step of it leaves as it is or makes longer by one.
///
/// A proof knows of a value that was handed out by a lock only what stands here: that it is sound,
/// which name it has, and how its journal began.
pub trait Kept: Sized {
    /// An entry of the journal.
    type Entry;
    /// What the keeper of the lock alone may change, as small plain data.
    type Part;

    // The type of the name: plain data, which need be no Rust type.
    ghost Name: { Type 0 };

    // The entries, oldest first.
    ghost journal: { Self → List Self.Entry };

    // What holds of each value whenever the lock is free.
    ghost sound: { Self → Type 0 };

    // The second value comes from the first by one step.
    ghost step: { Self → Self → Type 0 };

    ghost part: { Self → Self.Part };

    // What no step changes.
    ghost name: { Self → Name };

    // The place of the entry whose owner alone may add the next one, if there is such an entry.
    ghost owned: { List Self.Entry → Option ℕ };

    /// How many entries the journal has.
    fn entries(&self) -> u64
        ensures { result ≡ length (journal self.now) };

    ghost steps_keep_name: { (x y : Self) → step x y → name x ≡ name y };

    ghost owned_inside: { (j : List Self.Entry) (p : ℕ) → owned j ≡ Some p → p < length j };

    ghost owned_stays: { (j : List Self.Entry) (p n : ℕ) → owned j ≡ Some p → p < n → owned (take n j) ≡ Some p };
}
