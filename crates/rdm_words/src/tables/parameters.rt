//! Parameters.

ghost use Rattle.std.specs.Prelude.{◌≡◌, option_map};
ghost use Rattle.rdm_frame.specs.Names.{name_in};
ghost use Rattle.rdm_words.specs.Tables.{broker_names, endpoint_names, later_name, network_names, standard_name};

use rdm_params::parameter_name;

/// The name of a parameter, as `DMX_START_ADDRESS` (table A-3, E1.37-1, and those of the later standards).
#[tactic(auto, unfolding(crate::specs::Tables::standard_name))]
pub fn parameter(pid: u16) -> Option<&'static str>
    ensures { option_map (λ text. text.now) result ≡ standard_name pid }
{
    match parameter_name(pid) {
        Some(name) => Some(name),
        None => later_name(pid),
    }
}

/// The name of a parameter of the later standards.
fn later_name(pid: u16) -> Option<&'static str>
    ensures { option_map (λ text. text.now) result ≡ later_name pid }
{
    match pid / 256 {
        0x07 => network_name(pid),
        0x08 => broker_name(pid),
        0x09 => endpoint_name(pid),
        _ => None,
    }
}

/// A parameter of E1.37-2: how a device is reached by IPv4.
fn network_name(pid: u16) -> Option<&'static str>
    ensures { option_map (λ text. text.now) result ≡ name_in network_names pid }
{
    match pid {
        0x0700 => Some("LIST_INTERFACES"),
        0x0701 => Some("INTERFACE_LABEL"),
        0x0702 => Some("INTERFACE_HARDWARE_ADDRESS_TYPE1"),
        0x0703 => Some("IPV4_DHCP_MODE"),
        0x0704 => Some("IPV4_ZEROCONF_MODE"),
        0x0705 => Some("IPV4_CURRENT_ADDRESS"),
        0x0706 => Some("IPV4_STATIC_ADDRESS"),
        0x0707 => Some("INTERFACE_RENEW_DHCP"),
        0x0708 => Some("INTERFACE_RELEASE_DHCP"),
        0x0709 => Some("INTERFACE_APPLY_CONFIGURATION"),
        0x070A => Some("IPV4_DEFAULT_ROUTE"),
        0x070B => Some("DNS_IPV4_NAME_SERVER"),
        0x070C => Some("DNS_HOSTNAME"),
        0x070D => Some("DNS_DOMAIN_NAME"),
        _ => None,
    }
}

/// A parameter of E1.33: RDM over networks.
fn broker_name(pid: u16) -> Option<&'static str>
    ensures { option_map (λ text. text.now) result ≡ name_in broker_names pid }
{
    match pid {
        0x0800 => Some("COMPONENT_SCOPE"),
        0x0801 => Some("SEARCH_DOMAIN"),
        0x0802 => Some("TCP_COMMS_STATUS"),
        0x0803 => Some("BROKER_STATUS"),
        _ => None,
    }
}

/// A parameter of E1.37-7: the endpoints of gateways and splitters.
fn endpoint_name(pid: u16) -> Option<&'static str>
    ensures { option_map (λ text. text.now) result ≡ name_in endpoint_names pid }
{
    match pid {
        0x0900 => Some("ENDPOINT_LIST"),
        0x0901 => Some("ENDPOINT_LIST_CHANGE"),
        0x0902 => Some("IDENTIFY_ENDPOINT"),
        0x0903 => Some("ENDPOINT_TO_UNIVERSE"),
        0x0904 => Some("ENDPOINT_MODE"),
        0x0905 => Some("ENDPOINT_LABEL"),
        0x0906 => Some("RDM_TRAFFIC_ENABLE"),
        0x0907 => Some("DISCOVERY_STATE"),
        0x0908 => Some("BACKGROUND_DISCOVERY"),
        0x0909 => Some("ENDPOINT_TIMING"),
        0x090A => Some("ENDPOINT_TIMING_DESCRIPTION"),
        0x090B => Some("ENDPOINT_RESPONDERS"),
        0x090C => Some("ENDPOINT_RESPONDER_LIST_CHANGE"),
        0x090D => Some("BINDING_CONTROL_FIELDS"),
        0x090E => Some("BACKGROUND_QUEUED_STATUS_POLICY"),
        0x090F => Some("BACKGROUND_QUEUED_STATUS_POLICY_DESCRIPTION"),
        _ => None,
    }
}
