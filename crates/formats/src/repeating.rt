// 27 and 28: what is allowed once and comes a second time.
ghost use Rattle.std.specs.Prelude.{◌≡◌};
ghost use Rattle.std.specs.List.{flat_map};
ghost use Rattle.record.specs.Cursors.{fields_left, seen_field};
ghost use Rattle.record.specs.Rules.{verdict};
ghost use Rattle.formats.specs.Faults.{repeated_fields, repeated_subfields};

use crate::checking::RecordCheck;
use crate::faults::FormatFault;
use crate::format::Format;
use crate::marks::Marks;
use record::fields::Field;

impl<'a, F: Format> RecordCheck<'a, F> {
    // The subfields of a field, whose codes are marked as they come.
    fn check_repeated_codes(&self, field: Field<'_>) -> Result<(), FormatFault>
        ensures { result ≡ verdict (repeated_subfields (F.Format.meaning self.now.format.now) (seen_field field.entry)) tt }
    {
        let mut marks = Marks::<256>::new();
        for subfield in field.subfields() {
            let code = subfield.code;
            if self.format.subfield_occurs(field.tag, code).is_once()
                && marks.mark(usize::from(code))
            {
                return Err(FormatFault::RepeatedSubfield {
                    place: subfield.place,
                    tag: field.tag,
                    code,
                });
            }
        }
        Ok(())
    }

    // 27: no field has a second subfield of a code allowed once.
    pub(crate) fn check_repeated_subfields(&self) -> Result<(), FormatFault>
        ensures { result ≡ verdict (flat_map (repeated_subfields (F.Format.meaning self.now.format.now)) (fields_left self.now.fields)) tt }
    {
        let mut fields = self.fields;
        fields.try_for_each(|field| self.check_repeated_codes(field))
    }

    // 28: no second field has a tag allowed once. The tags are marked as they come; a format has none above 999.
    pub(crate) fn check_repeated_fields(&self) -> Result<(), FormatFault>
        ensures { result ≡ verdict (repeated_fields (F.Format.meaning self.now.format.now) (fields_left self.now.fields)) tt }
    {
        let mut marks = Marks::<1000>::new();
        for field in self.fields {
            let tag = field.tag;
            if self.format.tag_occurs(tag).is_once() && marks.mark(usize::from(tag)) {
                return Err(FormatFault::RepeatedField {
                    place: field.entry,
                    tag,
                });
            }
        }
        Ok(())
    }
}
