//! What a value gives in a field.
ghost use Rattle.std.specs.Prelude.{◌≡◌, Some};
ghost use Rattle.serde_json.specs.View.{view, items_view};
ghost use Rattle.serde_json.specs.Find.{as_str};
ghost use Rattle.and_script.specs.Forms as forms;

use crate::tables::{Cause, Form, Given, Toward};
use crate::words::{ip_of, is_name, mac_of, node_of, prefix_of};
use and_events::What;
use and_policy::Side;
use serde_json::Value;

fn side_given(text: &str) -> Option<Given>
    ensures { result ≡ forms.side_given text.now }
{
    if text == "egress" {
        Some(Given::Sided(Side::Egress))
    } else if text == "ingress" {
        Some(Given::Sided(Side::Ingress))
    } else {
        None
    }
}

fn action_given(text: &str) -> Option<Given>
    ensures { result ≡ forms.action_given text.now }
{
    if text == "allow" {
        Some(Given::Allows(true))
    } else if text == "deny" {
        Some(Given::Allows(false))
    } else {
        None
    }
}

fn target_given(text: &str) -> Option<Given>
    ensures { result ≡ forms.target_given text.now }
{
    if text == "local" {
        Some(Given::Going(Toward::ToLocal))
    } else if text == "drop" {
        Some(Given::Going(Toward::ToDrop))
    } else if text == "peer" {
        Some(Given::Going(Toward::ToPeer))
    } else {
        None
    }
}

fn what_given(text: &str) -> Option<Given>
    ensures { result ≡ forms.what_given text.now }
{
    if text == "install" {
        Some(Given::Holding(What::Install))
    } else if text == "forward" {
        Some(Given::Holding(What::Forward))
    } else {
        None
    }
}

fn protocol_given(text: &str) -> Option<Given>
    ensures { result ≡ forms.protocol_given text.now }
{
    if text == "tcp" {
        Some(Given::OfProtocol(Some(6)))
    } else if text == "udp" {
        Some(Given::OfProtocol(Some(17)))
    } else if text == "icmp" {
        Some(Given::OfProtocol(Some(1)))
    } else {
        None
    }
}

fn name_given(text: &str) -> Option<Given>
    ensures { result ≡ forms.name_given text.now }
{
    if is_name(text.as_bytes()) {
        Some(Given::Named)
    } else {
        None
    }
}

fn mac_given(text: &str) -> Option<Given>
    ensures { result ≡ forms.text_given Form.Mac text.now }
{
    match mac_of(text.as_bytes()) {
        Some(mac) => Some(Given::Address(mac)),
        None => None,
    }
}

fn ip_given(text: &str) -> Option<Given>
    ensures { result ≡ forms.text_given Form.Ip text.now }
{
    match ip_of(text.as_bytes()) {
        Some(ip) => Some(Given::Number(ip)),
        None => None,
    }
}

fn prefix_given(text: &str) -> Option<Given>
    ensures { result ≡ forms.text_given Form.Cidr text.now }
{
    match prefix_of(text.as_bytes()) {
        Some(prefix) => Some(Given::Within(prefix)),
        None => None,
    }
}

fn node_given(text: &str) -> Option<Given>
    ensures { result ≡ forms.text_given Form.NodeName text.now }
{
    match node_of(text.as_bytes()) {
        Some(node) => Some(Given::At(node)),
        None => None,
    }
}

/// What a text gives in a form that takes texts.
fn text_given(form: Form, text: &str) -> Option<Given>
    ensures { result ≡ forms.text_given form text.now }
{
    match form {
        Form::VmName => name_given(text),
        Form::Mac => mac_given(text),
        Form::Ip => ip_given(text),
        Form::Cidr => prefix_given(text),
        Form::Protocol => protocol_given(text),
        Form::OnSide => side_given(text),
        Form::Action => action_given(text),
        Form::TargetKind => target_given(text),
        Form::NodeName => node_given(text),
        Form::HoldKind => what_given(text),
        _ => None,
    }
}

fn or_range(given: Option<Given>) -> Result<Given, Cause>
    ensures { result ≡ forms.or_range given }
{
    match given {
        Some(given) => Ok(given),
        None => Err(Cause::Range),
    }
}

fn read_text(form: Form, value: &Value) -> Result<Given, Cause>
    ensures { result ≡ forms.texted form (as_str (view value.now)) }
{
    match value.as_str() {
        Some(text) => or_range(text_given(form, text)),
        None => Err(Cause::Field),
    }
}

fn read_whole(low: u32, high: u32, value: &Value) -> Result<Given, Cause>
    ensures { result ≡ forms.read_form (Form.Whole low high) (view value.now) }
{
    match value.as_u64() {
        Some(n) => {
            if low as u64 <= n && n <= high as u64 {
                Ok(Given::Number(n as u32))
            } else {
                Err(Cause::Range)
            }
        }
        None => Err(Cause::Field),
    }
}

fn read_priority(value: &Value) -> Result<Given, Cause>
    ensures { result ≡ forms.read_form Form.Priority (view value.now) }
{
    match value.as_u64() {
        Some(n) => if n <= 65535 {
            Ok(Given::Priority(n as u16))
        } else {
            Err(Cause::Range)
        },
        None => Err(Cause::Field),
    }
}

fn read_protocol_number(value: &Value) -> Result<Given, Cause>
    ensures { result ≡ forms.in_range 0 255 forms.number_of_protocol (forms.whole (view value.now)) }
{
    match value.as_u64() {
        Some(n) => if n <= 255 {
            Ok(Given::OfProtocol(Some(n as u8)))
        } else {
            Err(Cause::Range)
        },
        None => Err(Cause::Field),
    }
}

fn read_protocol(value: &Value) -> Result<Given, Cause>
    ensures { result ≡ forms.read_form Form.Protocol (view value.now) }
{
    match value.as_str() {
        Some(text) => or_range(protocol_given(text)),
        None => read_protocol_number(value),
    }
}

fn port_range(low: Option<u64>, high: Option<u64>) -> Result<Given, Cause>
    ensures { result ≡ forms.ports_read low high }
{
    let (Some(low), Some(high)) = (low, high) else {
        return Err(Cause::Field);
    };
    if low <= high && high <= 65535 {
        Ok(Given::Between {
            low: low as u16,
            high: high as u16,
        })
    } else {
        Err(Cause::Range)
    }
}

fn ports_in(list: &[Value]) -> Result<Given, Cause>
    ensures { result ≡ forms.ports_in (Some (items_view list.now)) }
{
    match list {
        [low, high] => port_range(low.as_u64(), high.as_u64()),
        [] => Err(Cause::Field),
        [_] => Err(Cause::Field),
        [_, _, _, ..] => Err(Cause::Field),
    }
}

fn read_ports(value: &Value) -> Result<Given, Cause>
    ensures { result ≡ forms.read_form Form.Ports (view value.now) }
{
    let Some(list) = value.as_array() else {
        return Err(Cause::Field);
    };
    ports_in(list.as_slice())
}

fn read_truth(value: &Value) -> Result<Given, Cause>
    ensures { result ≡ forms.read_form Form.Truth (view value.now) }
{
    match value.as_bool() {
        Some(b) => Ok(Given::Allows(b)),
        None => Err(Cause::Field),
    }
}

fn read_list(value: &Value) -> Result<Given, Cause>
    ensures { result ≡ forms.read_form Form.Script (view value.now) }
{
    match value.as_array() {
        Some(_) => Ok(Given::Listed),
        None => Err(Cause::Field),
    }
}

/// What a value gives in a field of this form; `Field` where it is of the wrong kind, `Range` where it is outside the form.
pub(crate) fn read_form(form: Form, value: &Value) -> Result<Given, Cause>
    ensures { result ≡ forms.read_form form (view value.now) }
{
    match form {
        Form::Whole { low, high } => read_whole(low, high, value),
        Form::Priority => read_priority(value),
        Form::Protocol => read_protocol(value),
        Form::Ports => read_ports(value),
        Form::Truth => read_truth(value),
        Form::Script => read_list(value),
        _ => read_text(form, value),
    }
}
