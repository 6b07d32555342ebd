//! The failure of a device.

use thiserror::Error;

/// A device failed. What it did before stands.
#[derive(Clone, Copy, Debug, PartialEq, Eq, Error)]
#[error("the device failed")]
pub struct DeviceFault;
