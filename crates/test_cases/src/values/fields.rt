//! The fields of records.
use crate::case::text_of;
use crate::output::Output;
use cif_records::{
    Association, Basic, Change, Detail, Extra, Header, Origin, Record, Stop, Terminus, Tiploc,
};

impl Output {
    fn put<const N: usize>(&mut self, name: &str, columns: [u8; N]) {
        writeln!(self, "{name} |{}|", text_of(&columns));
    }
}

/// Lists the fields of the record.
pub(crate) fn list_record(listing: &mut Output, record: &Record) {
    match record {
        Record::Header(header) => list_header(listing, header),
        Record::Tiploc(tiploc) => list_tiploc(listing, tiploc),
        Record::Association(association) => list_association(listing, association),
        Record::Basic(basic) => list_basic(listing, basic),
        Record::Extra(extra) => list_extra(listing, extra),
        Record::Origin(origin) => list_origin(listing, origin),
        Record::Stop(stop) => list_stop(listing, stop),
        Record::Change(change) => list_change(listing, change),
        Record::Terminus(terminus) => list_terminus(listing, terminus),
        Record::Trailer => listing.put("trailer", []),
    }
}

fn list_header(listing: &mut Output, header: &Header) {
    listing.put("columns", header.columns);
    listing.put("first", header.first.to_yymmdd());
    listing.put("last", header.last.to_yymmdd());
}

fn list_tiploc(listing: &mut Output, tiploc: &Tiploc) {
    listing.put("columns", tiploc.columns);
}

fn list_association(listing: &mut Output, association: &Association) {
    let key = &association.key;
    listing.put("key.base", key.base.write());
    listing.put("key.associated", key.associated.write());
    listing.put("first", association.first.to_yymmdd());
    listing.put("last", association.last.to_yymmdd());
    listing.put("days", association.days.write());
    listing.put("key.location", key.location.write());
    listing.put("key.base_suffix", key.base_suffix.write());
    listing.put("key.associated_suffix", key.associated_suffix.write());
    listing.put("letter", [association.letter.write()]);
    if let Some(body) = &association.body {
        listing.put("body.category", body.category.write());
        listing.put("body.date_indicator", body.date_indicator.write());
        listing.put("body.diagram", body.diagram.write());
        listing.put("body.kind", body.kind.write());
    }
}

fn list_basic(listing: &mut Output, basic: &Basic) {
    listing.put("uid", basic.uid.write());
    listing.put("first", basic.first.to_yymmdd());
    listing.put("last", basic.last.to_yymmdd());
    listing.put("days", basic.days.write());
    listing.put("letter", [basic.letter.write()]);
    if let Some(detail) = &basic.detail {
        list_detail(listing, detail);
    }
}

fn list_detail(listing: &mut Output, detail: &Detail) {
    listing.put("detail.status", detail.status.write());
    listing.put("detail.category", detail.category.write());
    listing.put("detail.identity", detail.identity.write());
    listing.put("detail.headcode", detail.headcode.write());
    listing.put("detail.course", detail.course.write());
    listing.put("detail.service_code", detail.service_code.write());
    listing.put("detail.sector", detail.sector.write());
    listing.put("detail.power", detail.power.write());
    list_later_detail(listing, detail);
}

/// Lists the fields of the detail from the timing load on.
fn list_later_detail(listing: &mut Output, detail: &Detail) {
    listing.put("detail.timing_load", detail.timing_load.write());
    listing.put("detail.speed", detail.speed.write());
    listing.put("detail.characteristics", detail.characteristics.write());
    listing.put("detail.class", detail.class.write());
    listing.put("detail.sleepers", detail.sleepers.write());
    listing.put("detail.reservations", detail.reservations.write());
    listing.put("detail.connection", detail.connection.write());
    listing.put("detail.catering", detail.catering.write());
    listing.put("detail.branding", detail.branding.write());
}

fn list_extra(listing: &mut Output, extra: &Extra) {
    listing.put("traction", extra.traction.write());
    listing.put("uic", extra.uic.write());
    listing.put("operator_code", extra.operator_code.write());
    listing.put("timetable_code", extra.timetable_code.write());
    listing.put("reserved_a", extra.reserved_a.write());
    listing.put("reserved_b", extra.reserved_b.write());
}

fn list_origin(listing: &mut Output, origin: &Origin) {
    listing.put("location", origin.location.write());
    listing.put("suffix", origin.suffix.write());
    listing.put("departure", origin.departure.write());
    listing.put("public_departure", origin.public_departure.write());
    listing.put("platform", origin.platform.write());
    listing.put("line", origin.line.write());
    listing.put("engineering", origin.engineering.write());
    listing.put("pathing", origin.pathing.write());
    listing.put("activities", origin.activities.write());
    listing.put("performance", origin.performance.write());
}

fn list_stop(listing: &mut Output, stop: &Stop) {
    listing.put("location", stop.location.write());
    listing.put("suffix", stop.suffix.write());
    listing.put("arrival", stop.arrival.write());
    listing.put("departure", stop.departure.write());
    listing.put("pass", stop.pass.write());
    listing.put("public_arrival", stop.public_arrival.write());
    listing.put("public_departure", stop.public_departure.write());
    listing.put("platform", stop.platform.write());
    listing.put("line", stop.line.write());
    listing.put("path", stop.path.write());
    listing.put("activities", stop.activities.write());
    listing.put("engineering", stop.engineering.write());
    listing.put("pathing", stop.pathing.write());
    listing.put("performance", stop.performance.write());
}

fn list_change(listing: &mut Output, change: &Change) {
    listing.put("location", change.location.write());
    listing.put("suffix", change.suffix.write());
    listing.put("category", change.category.write());
    listing.put("identity", change.identity.write());
    listing.put("headcode", change.headcode.write());
    listing.put("course", change.course.write());
    listing.put("service_code", change.service_code.write());
    listing.put("sector", change.sector.write());
    listing.put("power", change.power.write());
    list_later_change(listing, change);
}

/// Lists the fields of the change from the timing load on.
fn list_later_change(listing: &mut Output, change: &Change) {
    listing.put("timing_load", change.timing_load.write());
    listing.put("speed", change.speed.write());
    listing.put("characteristics", change.characteristics.write());
    listing.put("class", change.class.write());
    listing.put("sleepers", change.sleepers.write());
    listing.put("reservations", change.reservations.write());
    listing.put("connection", change.connection.write());
    listing.put("catering", change.catering.write());
    listing.put("branding", change.branding.write());
    listing.put("traction", change.traction.write());
    listing.put("uic", change.uic.write());
    listing.put("reserved_a", change.reserved_a.write());
}

fn list_terminus(listing: &mut Output, terminus: &Terminus) {
    listing.put("location", terminus.location.write());
    listing.put("suffix", terminus.suffix.write());
    listing.put("arrival", terminus.arrival.write());
    listing.put("public_arrival", terminus.public_arrival.write());
    listing.put("platform", terminus.platform.write());
    listing.put("path", terminus.path.write());
    listing.put("activities", terminus.activities.write());
}
