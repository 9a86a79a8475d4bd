// 23 to 26: leader codes, tags, indicators and subfield codes that the format does not admit.
ghost use Rattle.std.specs.Prelude.{◌≡◌, ◌<◌};
ghost use Rattle.std.specs.List.{flat_map};
ghost use Rattle.record.specs.Cursors.{fields_left, seen_field};
ghost use Rattle.record.specs.Rules.{verdict};
ghost use Rattle.formats.specs.Faults.{indicator_fault, indicator_faults, leader_faults, subfield_faults, tag_fault};
ghost use Rattle.formats.specs.Indicators.{number_of_indicator};

use crate::checking::RecordCheck;
use crate::faults::FormatFault;
use crate::format::Format;
use crate::indicator::WhichIndicator;
use record::fields::{Content, Field};
use record::leader::positions;

impl<'a, F: Format> RecordCheck<'a, F> {
    // 23: each leader code is admitted at its position.
    pub(crate) fn check_leader(&self) -> Result<(), FormatFault>
        ensures { result ≡ verdict (leader_faults (F.Format.meaning self.now.format.now) self.now.codes) tt }
    {
        let mut placed = positions().iter().zip(&self.codes);
        match placed.find(|(position, code)| !self.format.admits_code(**position, **code)) {
            Some((position, code)) => Err(FormatFault::LeaderCode {
                position: *position,
                code: *code,
            }),
            None => Ok(()),
        }
    }

    // 24: each tag is present.
    pub(crate) fn check_tags(&self) -> Result<(), FormatFault>
        ensures { result ≡ verdict (flat_map (tag_fault (F.Format.meaning self.now.format.now)) (fields_left self.now.fields)) tt }
    {
        let mut fields = self.fields;
        match fields.find(|field| !self.format.tag_occurs(field.tag).is_present()) {
            Some(field) => Err(FormatFault::Tag {
                place: field.entry,
                tag: field.tag,
            }),
            None => Ok(()),
        }
    }

    // One indicator, at its place.
    fn check_indicator(
        &self,
        place: usize,
        tag: u16,
        which: WhichIndicator,
        code: u8,
    ) -> Result<(), FormatFault>
        ensures { result ≡ verdict (indicator_fault (F.Format.meaning self.now.format.now) tag place (number_of_indicator which) code) tt }
    {
        let indicator = u8::from(which);
        if !self.format.admits_indicator(tag, indicator, code) {
            return Err(FormatFault::Indicator {
                place,
                tag,
                indicator,
                code,
            });
        }
        Ok(())
    }

    // The two indicators of a field; a control field has none.
    fn check_both(&self, field: Field<'_>) -> Result<(), FormatFault>
        requires { field.place < 100000 }
        ensures { result ≡ verdict (indicator_faults (F.Format.meaning self.now.format.now) (seen_field field.entry)) tt }
    {
        match field.content {
            Content::Control(_) => Ok(()),
            Content::Data { first, second, .. } => {
                self.check_indicator(field.place, field.tag, WhichIndicator::First, first)?;
                self.check_indicator(field.place + 1, field.tag, WhichIndicator::Second, second)
            }
        }
    }

    // 25: each indicator is admitted.
    pub(crate) fn check_indicators(&self) -> Result<(), FormatFault>
        ensures { result ≡ verdict (flat_map (indicator_faults (F.Format.meaning self.now.format.now)) (fields_left self.now.fields)) tt }
    {
        let mut fields = self.fields;
        fields.try_for_each(|field| self.check_both(field))
    }

    // The subfield codes of a field.
    fn check_codes(&self, field: Field<'_>) -> Result<(), FormatFault>
        ensures { result ≡ verdict (subfield_faults (F.Format.meaning self.now.format.now) (seen_field field.entry)) tt }
    {
        let format = self.format;
        let mut subfields = field.subfields();
        match subfields.find(|subfield| !format
            .subfield_occurs(field.tag, subfield.code)
            .is_present())
        {
            Some(subfield) => Err(FormatFault::Subfield {
                place: subfield.place,
                tag: field.tag,
                code: subfield.code,
            }),
            None => Ok(()),
        }
    }

    // 26: each subfield code is admitted.
    pub(crate) fn check_subfields(&self) -> Result<(), FormatFault>
        ensures { result ≡ verdict (flat_map (subfield_faults (F.Format.meaning self.now.format.now)) (fields_left self.now.fields)) tt }
    {
        let mut fields = self.fields;
        fields.try_for_each(|field| self.check_codes(field))
    }
}
