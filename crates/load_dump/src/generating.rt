ghost use Rattle.std.specs.Prelude.{◌≡◌, ◌<◌, ◌≤◌, ◌/◌, ◌%◌, ◌++◌, ◌∷◌, [], IfOk, OnOk};
ghost use Rattle.load_dump.specs.Generated.{chain_text, head_text, load_text, net_text, rule_lines, rule_text};

use std::alloc::{AllocError, Global};

// The net of the rule of this number.
fn net(alloc: Global, i: u32) -> Result<String, AllocError>
    ensures { IfOk result (λ text. text.bytes.items ≡ net_text i) }
{
    format!(in alloc; "10.{}.{}.0/24", i / 256, i % 256)
}

// The line of the rule of this number, without a line feed.
fn rule(alloc: Global, i: u32) -> Result<String, AllocError>
    requires { i < 1000 }
    ensures { IfOk result (λ text. text.bytes.items ≡ rule_text i) }
{
    let net = net(alloc, i)?;
    let chain = i / 5 % 8;
    match i % 5 {
        0 => format!(in alloc; "-A FORWARD -s {net} -m limit --limit 5/sec -j S{chain}"),
        1 => format!(in alloc; "-A S{chain} -s {net} -j RETURN"),
        2 => format!(in alloc;
            "-A S{chain} -d {net} -p tcp -m tcp --dport {} -j ACCEPT",
            i + 1
        ),
        3 => format!(in alloc; "-A S{chain} -p udp -m recent --rcheck -j DROP"),
        _ => format!(in alloc; "-A FORWARD -d {net} -j ACCEPT"),
    }
}

const HEAD: &[u8] =
    b"*filter\n:FORWARD DROP [0:0]\n:S0 - [0:0]\n:S1 - [0:0]\n:S2 - [0:0]\n:S3 - [0:0]\n:S4 - [0:0]\n:S5 - [0:0]\n:S6 - [0:0]\n:S7 - [0:0]\n";

/// The text of a dump with so many rules, from 1 to 1000: a filter table with the chain FORWARD, whose policy is DROP, and eight
/// chains S0 to S7. The rules take turns: a call that depends on an unknown match, a return by source, an accept by
/// destination and port, a drop that depends on an unknown match, an accept by destination. Each but the drop has a net of its own. The one refusal
/// is want of memory.
#[tactic(auto, unfolding(crate::specs::Generated::load_text))]
pub fn load_text(alloc: Global, n: u32) -> Result<Vec<u8>, AllocError>
    requires few { 1 ≤ n }
    requires most { n ≤ 1000 }
    ensures { IfOk result (λ text. text.items ≡ load_text n) }
{
    let mut text = Vec::from_slice(alloc, HEAD)?;
    for i in 0..n {
        text.extend_from_slice(rule(alloc, i)?.as_bytes())?;
        text.push(b'\n')?;
    }
    text.extend_from_slice(b"COMMIT\n")?;
    Ok(text)
}
