// One of two values, by a flag: settings that a load brings, and those that the host knows.
ghost use Rattle.std.specs.Prelude.{◌≡◌, cond};

// The new value where the flag is set, else the old one.
pub fn pick<T: Copy>(flag: bool, new: T, old: T) -> T
    ensures { result ≡ cond flag new old }
{
    if flag { new } else { old }
}
