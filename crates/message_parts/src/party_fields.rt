//! Fields of requests that say for whom a claim is, by whom, and who else pays, which this profile carries and does not
//! use, by number and name. Definitions cite these tables.

use crate::names::Called;

/// The patient segment, AM01.
pub(crate) static PATIENT: [Called; 16] = [
    ("331-CX", "patient ID qualifier", "patient_id_qualifier"),
    ("332-CY", "patient ID", "patient_id"),
    ("304-C4", "date of birth", "date_of_birth"),
    ("305-C5", "patient gender code", "patient_gender_code"),
    ("310-CA", "patient first name", "patient_first_name"),
    ("311-CB", "patient last name", "patient_last_name"),
    ("322-CM", "patient street address", "patient_street_address"),
    ("323-CN", "patient city", "patient_city"),
    (
        "324-CO",
        "patient state or province",
        "patient_state_or_province",
    ),
    (
        "325-CP",
        "patient ZIP or postal zone",
        "patient_zip_or_postal_zone",
    ),
    ("326-CQ", "patient phone number", "patient_phone_number"),
    ("307-C7", "place of service", "place_of_service"),
    ("333-CZ", "employer ID", "employer_id"),
    ("335-2C", "pregnancy indicator", "pregnancy_indicator"),
    ("350-HN", "patient e-mail address", "patient_e_mail_address"),
    ("384-4X", "patient residence", "patient_residence"),
];

/// The pharmacy provider and the prescriber segment, AM02 and AM03.
pub(crate) static PROVIDERS: [Called; 14] = [
    ("465-EY", "provider ID qualifier", "provider_id_qualifier"),
    ("444-E9", "provider ID", "provider_id"),
    (
        "466-EZ",
        "prescriber ID qualifier",
        "prescriber_id_qualifier",
    ),
    ("411-DB", "prescriber ID", "prescriber_id"),
    ("427-DR", "prescriber last name", "prescriber_last_name"),
    (
        "498-PM",
        "prescriber phone number",
        "prescriber_phone_number",
    ),
    (
        "468-2E",
        "primary care ID qualifier",
        "primary_care_provider_id_qualifier",
    ),
    (
        "421-DL",
        "primary care provider ID",
        "primary_care_provider_id",
    ),
    (
        "470-4E",
        "primary care last name",
        "primary_care_provider_last_name",
    ),
    ("364-2J", "prescriber first name", "prescriber_first_name"),
    (
        "365-2K",
        "prescriber street address",
        "prescriber_street_address",
    ),
    ("366-2M", "prescriber city", "prescriber_city"),
    (
        "367-2N",
        "prescriber state or province",
        "prescriber_state_or_province",
    ),
    (
        "368-2P",
        "prescriber ZIP or postal zone",
        "prescriber_zip_or_postal_zone",
    ),
];

/// The insurance segment, AM04.
pub(crate) static INSURANCE: [Called; 14] = [
    ("312-CC", "cardholder first name", "cardholder_first_name"),
    ("313-CD", "cardholder last name", "cardholder_last_name"),
    ("314-CE", "home plan", "home_plan"),
    ("524-FO", "plan ID", "plan_id"),
    (
        "309-C9",
        "eligibility clarification code",
        "eligibility_clarification_code",
    ),
    ("301-C1", "group ID", "group_id"),
    ("303-C3", "person code", "person_code"),
    (
        "306-C6",
        "patient relationship code",
        "patient_relationship_code",
    ),
    ("359-2A", "Medigap ID", "medigap_id"),
    ("360-2B", "Medicaid indicator", "medicaid_indicator"),
    (
        "361-2D",
        "provider accepts assignment",
        "provider_accept_assignment_indicator",
    ),
    ("115-N5", "Medicaid ID number", "medicaid_id_number"),
    ("116-N6", "Medicaid agency number", "medicaid_agency_number"),
    (
        "997-G2",
        "CMS Part D qualified facility",
        "cms_part_d_qualified_facility",
    ),
];

/// The segment of coordination of benefits and other payments, AM05.
pub(crate) static OTHER_PAYERS: [Called; 17] = [
    ("337-4C", "other payments count", "other_payments_count"),
    (
        "338-5C",
        "other payer coverage type",
        "other_payer_coverage_type",
    ),
    (
        "339-6C",
        "other payer ID qualifier",
        "other_payer_id_qualifier",
    ),
    ("340-7C", "other payer ID", "other_payer_id"),
    ("443-E8", "other payer date", "other_payer_date"),
    (
        "993-A7",
        "internal control number",
        "internal_control_number",
    ),
    (
        "341-HB",
        "other payer amount paid count",
        "other_payer_amount_paid_count",
    ),
    (
        "342-HC",
        "other payer amount qualifier",
        "other_payer_amount_paid_qualifier",
    ),
    (
        "431-DV",
        "other payer amount paid",
        "other_payer_amount_paid",
    ),
    (
        "471-5E",
        "other payer reject count",
        "other_payer_reject_count",
    ),
    (
        "472-6E",
        "other payer reject code",
        "other_payer_reject_code",
    ),
    (
        "353-NR",
        "patient responsibility count",
        "other_payer_patient_responsibility_amount_count",
    ),
    (
        "351-NP",
        "responsibility qualifier",
        "other_payer_patient_responsibility_amount_qualifier",
    ),
    (
        "352-NQ",
        "patient responsibility amount",
        "other_payer_patient_responsibility_amount",
    ),
    ("392-MU", "benefit stage count", "benefit_stage_count"),
    (
        "393-MV",
        "benefit stage qualifier",
        "benefit_stage_qualifier",
    ),
    ("394-MW", "benefit stage amount", "benefit_stage_amount"),
];

/// The workers' compensation segment, AM06.
pub(crate) static WORKERS_COMPENSATION: [Called; 4] = [
    ("434-DY", "date of injury", "date_of_injury"),
    ("315-CF", "employer name", "employer_name"),
    ("327-CR", "carrier ID", "carrier_id"),
    ("435-DZ", "claim or reference ID", "claim_or_reference_id"),
];
