// Shares of what is counted.
ghost use Rattle.std.specs.Prelude.{◌≡◌, ◌≤◌, ◌<◌, IfNone, IfSome, Some};
ghost use Rattle.std.specs.Option.{option_map};
ghost use Rattle.effective_area.specs.ShareTexts.{number_of, share_limit, share_of};

/// The most that a share may be counted out of.
const SHARE_LIMIT: u64 = 1_000_000_000;

/// A share of what is counted: so many out of so many.
#[derive(Clone, Copy, Debug)]
pub struct Share {
    /// At most as many as `whole`.
    pub part: u64,
    /// From 1 to 10^9.
    pub whole: u64,

    pub ghost positive: { 0 < whole },
    pub ghost limited: { whole ≤ share_limit },
    pub ghost within: { part ≤ whole },
}

/// The number that these decimal digits write, if it is within the limit of shares. None for a text that isn't digits alone, too.
#[tactic(auto, using(crate::proofs::ShareNumbers::read, crate::proofs::ShareNumbers::over, crate::proofs::ShareNumbers::over_by))]
fn number(digits: &str) -> Option<u64>
    ensures value { IfSome result (λ n. number_of digits.now ≡ Some n) }
    ensures limited { IfSome result (λ n. n ≤ share_limit) }
    ensures none { IfNone result (IfSome (number_of digits.now) (λ n. share_limit < n)) }
{
    // `parse` takes a plus sign, which is no digit.
    if digits.starts_with('+') {
        return None;
    }
    match digits.parse::<u64>() {
        Ok(number) if number <= SHARE_LIMIT => Some(number),
        _ => None,
    }
}

/// The share that a text `P/Q` writes. Both are decimal digits, whose value alone counts: zeros in front are taken. None for any other
/// text, as one with blanks, signs, points or a second `/`, and where Q is 0 or above 10^9, or P above Q.
pub fn read_share(text: &str) -> Option<Share>
    ensures { option_map (λ share. (share.part, share.whole)) result ≡ share_of text.now }
{
    let (part, whole) = text.split_once('/')?;
    let part = number(part)?;
    let whole = number(whole)?;
    if whole == 0 || part > whole {
        return None;
    }
    Some(Share { part, whole })
}
