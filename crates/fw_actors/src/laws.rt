//! Laws of the steps of the controller and of devices, which cost nothing to call. Those of firmware are in `world`.
ghost use Rattle.fw_actors.specs.Giving.{CtlGives, CtlStays, DeviceGives, DeviceStays};

/// Over the world of one thread a step of the controller is exactly what the definitions give it, and a step that does
/// nothing leaves all as it is.
pub fn law_controller()
    ensures gives { CtlGives }
    ensures stays { CtlStays }
{}

/// The same of a device.
pub fn law_device()
    ensures gives { DeviceGives }
    ensures stays { DeviceStays }
{}
