// The length of text in lines.
ghost use Rattle.std.specs.Prelude.{◌≡◌, ◌<◌, ◌^◌, ◌*◌, ◌/◌, ◌+◌, ◌-◌, ℕ, List, length};
ghost use Rattle.model_base64.specs.Base64Text.{IsForm, text_of, line_break};

use mdbox_base::LineForm;

/// The length of the text of a form and so many octets.
pub fn text_size(form: LineForm, octets: u32) -> u64
    requires { IsForm form }
    ensures { (text : List ℕ) → length text ≡ octets → result ≡ length (text_of form text) }
{
    text_length(form, u64::from(octets))
}

/// The same for more octets than a u32 counts.
pub fn text_length(form: LineForm, octets: u64) -> u64
    requires form { IsForm form }
    requires few { octets < 2 ^ 62 }
    ensures { (text : List ℕ) → length text ≡ octets → result ≡ length (text_of form text) }
{
    let characters = 4 * octets.div_ceil(3);
    let breaks = characters.saturating_sub(1) / u64::from(form.length);
    characters + breaks * break_size(form.crlf)
}

fn break_size(crlf: bool) -> u64
    ensures { result ≡ length (line_break crlf) }
{
    if crlf { 2 } else { 1 }
}
