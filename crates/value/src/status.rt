// The status of a measured value.
ghost use Rattle.std.specs.Prelude.{◌≡◌, ◌≤◌, if◌then◌else◌};
ghost use Rattle.value.specs.Status.{status_byte};

const NET_OVERFLOW: u8 = 1;

const GROSS_OVERFLOW: u8 = 2;

const OVERDRIVEN: u8 = 4;

const ALWAYS: u8 = 8;

// The mark where it is set, else 0.
fn marked(set: bool, mark: u8) -> u8
    ensures value { result ≡ (if set then mark else 0) }
    ensures bound { result ≤ mark }
{
    if set { mark } else { 0 }
}

// The status byte: whether the net and the gross value fit, and whether a gauge was overdriven.
pub fn status(net_fits: bool, gross_fits: bool, overdriven: bool) -> u8
    ensures { result ≡ status_byte net_fits gross_fits overdriven }
{
    marked(!net_fits, NET_OVERFLOW)
        + marked(!gross_fits, GROSS_OVERFLOW)
        + marked(overdriven, OVERDRIVEN)
        + ALWAYS
}
