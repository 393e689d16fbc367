// How a file of cases is written.
use crate::bodies::spell;
use crate::changes::put_changed;
use crate::draft::Draft;
use crate::texts::Texts;

/// A section: what its body is for, and of which text the body says a change.
#[derive(Clone, Copy)]
pub struct Section<'a> {
    /// Whether each line of the body is a case of its own.
    pub each: bool,
    /// `typed`, `words`, `text NAME`, or the name of a file.
    pub target: &'a str,
    /// The text that is changed, if the body says no text of its own.
    pub base: Option<&'a str>,
    pub body: &'a str,
}

impl<'a> Section<'a> {
    /// The section of its lines, of which the first is `[each] TARGET [of BASE]`. Empty lines at its end do not count.
    pub fn of(lines: &'a str) -> Section<'a> {
        let (head, body) = lines.split_once('\n').unwrap_or((lines, ""));
        let each = head.strip_prefix("each ");
        let head = each.unwrap_or(head);
        let (target, base) = match head.split_once(" of ") {
            Some((target, base)) => (target, Some(base)),
            None => (head, None),
        };
        Section {
            each: each.is_some(),
            target,
            base,
            body: body.trim_end_matches('\n'),
        }
    }

    /// The text that the whole body says.
    pub fn text(&self, texts: &Texts) -> Draft {
        let mut text = Draft::new(texts.alloc());
        match self.base {
            Some(base) => {
                texts.put(base, &mut text);
                self.change(texts, &mut text);
            }
            None => {
                if spell(texts, self.body, &mut text) && !self.body.is_empty() {
                    text.put(b"\n");
                }
            }
        }
        text
    }

    // Does one change after another.
    fn change(&self, texts: &Texts, text: &mut Draft) {
        for change in self.body.lines() {
            let mut next = Draft::new(texts.alloc());
            next.fail_with(text);
            put_changed(texts, text.bytes(), change, &mut next);
            *text = next;
        }
    }

    /// The text that a line of the body says: the base with the change that it names, or what it spells, without a line feed.
    pub fn text_of_line(&self, texts: &Texts, base: &[u8], line: &str) -> Draft {
        let mut text = Draft::new(texts.alloc());
        if self.base.is_some() {
            put_changed(texts, base, line, &mut text);
        } else {
            spell(texts, line, &mut text);
        }
        text
    }
}
