// The version of the interface, by a name that carries it: an object that was built with another header asks for another name, and does not link.
// It is ten times the number of the request that landed last, and one more for each landing since. include/dokkumel.h has the same number.
ghost use Rattle.std.specs.Prelude.{◌≡◌};

#[unsafe(no_mangle)]
pub extern "C" fn dokkumel_version_81() -> u32
    ensures { result ≡ 81 }
{
    81
}
