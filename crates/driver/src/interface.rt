// The number of the interface.
ghost use Rattle.std.specs.Prelude.{◌≡◌};
ghost use Rattle.driver.specs.Interface.{interface_number};

const INTERFACE: u32 = 4;

// The number that the header of this library has as KEFTHRUN_INTERFACE.
#[unsafe(no_mangle)]
pub extern "C" fn kefthrun_interface() -> u32
    ensures { result ≡ interface_number }
{
    INTERFACE
}
