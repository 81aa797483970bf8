//! The switches that the operator turns on and off.
ghost use Rattle.std.specs.Prelude.{◌≡◌};
ghost use Rattle.gate_core.specs.Switching.{switched, unswitched};

use gate_message::Switch;

/// Whether bloom filters are on, whether the upload target is reached, whether that for historical blocks is, and
/// whether the initial block download goes on.
#[derive(Clone, Copy, PartialEq, Eq)]
pub struct Switches {
    pub bloom: bool,
    pub upload: bool,
    pub historic: bool,
    pub download: bool,
}

impl Switches {
    /// The switches of an opening: all are off, except for bloom filters if the opening has them on.
    pub(crate) fn opened(bloom: bool) -> Switches
        ensures { result ≡ unswitched bloom }
    {
        Switches {
            bloom,
            upload: false,
            historic: false,
            download: false,
        }
    }

    pub(crate) fn set(&self, switch: Switch, on: bool) -> Switches
        ensures { result ≡ switched self.now switch on }
    {
        match switch {
            Switch::Bloom => Switches { bloom: on, ..*self },
            Switch::Upload => Switches {
                upload: on,
                ..*self
            },
            Switch::Historic => Switches {
                historic: on,
                ..*self
            },
            Switch::Download => Switches {
                download: on,
                ..*self
            },
        }
    }
}
