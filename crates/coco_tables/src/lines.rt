//! The fields of a line of the table.
ghost use Rattle.std.specs.Prelude.{◌≤◌, IfSome};

/// What a line shows, the number of partitions, the calls that are run one behind another, the calls that are tried
/// beside one another, and how these take turns.
#[derive(Drop)]
pub struct Line<'a> {
    pub shows: &'a str,
    pub partitions: u8,
    pub given: &'a str,
    pub tried: &'a str,
    pub how: &'a str,
}

/// The five fields between the bars of a line. None where they are fewer, or there is no partition.
pub fn line_of(text: &str) -> Option<Line<'_>>
    ensures { IfSome result (λ line. 1 ≤ line.partitions) }
{
    let mut fields = text.split('|');
    let shows = fields.next()?.trim();
    let partitions = fields.next()?.trim().parse::<u8>().ok()?;
    let given = fields.next()?;
    let tried = fields.next()?;
    let how = fields.next()?.trim();
    if partitions == 0 {
        return None;
    }
    Some(Line {
        shows,
        partitions,
        given,
        tried,
        how,
    })
}
