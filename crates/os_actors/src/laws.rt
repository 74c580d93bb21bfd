//! Laws of the steps of int and poll, which cost nothing to call. Those of workers are in `world`.
ghost use Rattle.os_actors.specs.Giving.{HostGives, HostStays};

/// Over the world of one thread a step of int or poll is exactly what the definitions give it, and a step that does
/// nothing leaves all as it is.
pub fn law_host()
    ensures gives { HostGives }
    ensures stays { HostStays }
{}
